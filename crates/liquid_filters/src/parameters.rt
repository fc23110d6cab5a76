//! The parameters of standard filters.
use liquid_plugins::ParameterReflection;

pub(crate) static NONE: [ParameterReflection; 0] = [];

pub(crate) static TEXT: [ParameterReflection; 1] = [ParameterReflection {
    name: "text",
    description: "The other string.",
    is_optional: false,
}];

pub(crate) static REPLACEMENT: [ParameterReflection; 2] = [
    ParameterReflection {
        name: "search",
        description: "What is replaced.",
        is_optional: false,
    },
    ParameterReflection {
        name: "replacement",
        description: "What is put in its place, or nothing.",
        is_optional: true,
    },
];

pub(crate) static LAST_REPLACEMENT: [ParameterReflection; 2] = [
    ParameterReflection {
        name: "search",
        description: "What is replaced.",
        is_optional: false,
    },
    ParameterReflection {
        name: "replacement",
        description: "What is put in its place.",
        is_optional: false,
    },
];

pub(crate) static SLICE: [ParameterReflection; 2] = [
    ParameterReflection {
        name: "start",
        description: "The position of the first one, from the end if it is negative.",
        is_optional: false,
    },
    ParameterReflection {
        name: "length",
        description: "How many are returned, or one.",
        is_optional: true,
    },
];

pub(crate) static CUT: [ParameterReflection; 2] = [
    ParameterReflection {
        name: "length",
        description: "How many are kept at most.",
        is_optional: true,
    },
    ParameterReflection {
        name: "ellipsis",
        description: "What is appended if some are left out, or three dots.",
        is_optional: true,
    },
];

pub(crate) static NUMBER: [ParameterReflection; 1] = [ParameterReflection {
    name: "number",
    description: "The other number.",
    is_optional: false,
}];

pub(crate) static DIVISOR: [ParameterReflection; 2] = [
    ParameterReflection {
        name: "number",
        description: "The other number.",
        is_optional: false,
    },
    ParameterReflection {
        name: "digits",
        description: "How many digits the quotient has after the point.",
        is_optional: true,
    },
];

pub(crate) static DECIMAL: [ParameterReflection; 3] = [
    ParameterReflection {
        name: "digits",
        description: "How many digits are written after the point.",
        is_optional: false,
    },
    ParameterReflection {
        name: "point",
        description: "What is put before those digits, or a point.",
        is_optional: true,
    },
    ParameterReflection {
        name: "group",
        description: "What is put between each three digits before the point, or nothing.",
        is_optional: true,
    },
];

pub(crate) static UNIT: [ParameterReflection; 1] = [ParameterReflection {
    name: "digits",
    description: "How many digits the larger unit has after the point.",
    is_optional: false,
}];

pub(crate) static DIGITS: [ParameterReflection; 1] = [ParameterReflection {
    name: "digits",
    description: "How many digits are kept after the point: -2 gives hundreds.",
    is_optional: true,
}];

pub(crate) static SEPARATOR: [ParameterReflection; 1] = [ParameterReflection {
    name: "separator",
    description: "What is put between them, or a space.",
    is_optional: true,
}];

pub(crate) static ARRAY: [ParameterReflection; 1] = [ParameterReflection {
    name: "array",
    description: "The other items.",
    is_optional: false,
}];

pub(crate) static NAME: [ParameterReflection; 1] = [ParameterReflection {
    name: "property",
    description: "The name of the property.",
    is_optional: false,
}];

pub(crate) static PROPERTY: [ParameterReflection; 1] = [ParameterReflection {
    name: "property",
    description: "The name of a property to go by.",
    is_optional: true,
}];

pub(crate) static WHERE: [ParameterReflection; 2] = [
    ParameterReflection {
        name: "property",
        description: "The name of the property.",
        is_optional: false,
    },
    ParameterReflection {
        name: "value",
        description: "What it has to be, or anything that counts as true.",
        is_optional: true,
    },
];

pub(crate) static PATTERN: [ParameterReflection; 1] = [ParameterReflection {
    name: "pattern",
    description: "What is printed, with directives for the parts of the date.",
    is_optional: false,
}];

pub(crate) static VALUE: [ParameterReflection; 1] = [ParameterReflection {
    name: "value",
    description: "What is returned in place of the input.",
    is_optional: true,
}];

pub(crate) static ALLOW_FALSE: [ParameterReflection; 1] = [ParameterReflection {
    name: "allow_false",
    description: "Whether false is kept.",
    is_optional: true,
}];
