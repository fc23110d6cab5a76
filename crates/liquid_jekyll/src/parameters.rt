//! The parameters of Jekyll's filters.
use liquid_plugins::ParameterReflection;

pub(crate) static NONE: [ParameterReflection; 0] = [];

pub(crate) static MODE: [ParameterReflection; 1] = [ParameterReflection {
    name: "mode",
    description: "The name of a mode, or the default one.",
    is_optional: true,
}];

pub(crate) static CONNECTOR: [ParameterReflection; 1] = [ParameterReflection {
    name: "connector",
    description: "The word before the last item, or `and`.",
    is_optional: true,
}];

pub(crate) static COUNT: [ParameterReflection; 1] = [ParameterReflection {
    name: "count",
    description: "How many items are left out, or one.",
    is_optional: true,
}];

pub(crate) static ITEM: [ParameterReflection; 1] = [ParameterReflection {
    name: "item",
    description: "The new item.",
    is_optional: false,
}];

pub(crate) static DAY: [ParameterReflection; 2] = [
    ParameterReflection {
        name: "day",
        description: "How the day is written: `ordinal`, or as a number of two digits.",
        is_optional: true,
    },
    ParameterReflection {
        name: "order",
        description: "What is first: the month with `US`, or the day.",
        is_optional: true,
    },
];

pub(crate) static KEY: [ParameterReflection; 1] = [ParameterReflection {
    name: "key",
    description: "The name of a property, or names with dots between them.",
    is_optional: false,
}];

pub(crate) static KEY_AND_VALUE: [ParameterReflection; 2] = [
    ParameterReflection {
        name: "key",
        description: "The name of a property, or names with dots between them.",
        is_optional: false,
    },
    ParameterReflection {
        name: "value",
        description: "What the key has to fit.",
        is_optional: false,
    },
];

pub(crate) static WHERE: [ParameterReflection; 2] = [
    ParameterReflection {
        name: "key",
        description: "The name of a property, or names with dots between them.",
        is_optional: false,
    },
    ParameterReflection {
        name: "value",
        description: "What the key has to fit, or anything that counts as true.",
        is_optional: true,
    },
];

pub(crate) static SORT: [ParameterReflection; 2] = [
    ParameterReflection {
        name: "key",
        description: "The name of a property to go by, or names with dots between them.",
        is_optional: true,
    },
    ParameterReflection {
        name: "nils",
        description: "Where items without a key are: `first` or `last`.",
        is_optional: true,
    },
];
