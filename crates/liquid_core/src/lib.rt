//! Liquid templates: parsed, and rendered over names that a caller sets.
//!
//! All that users need is exported here, at the paths of Rust's liquid-core: errors in `error`, values in `model`,
//! `parse` in `parser`, frames and templates in `runtime`. At the root are the most used names of that crate's root,
//! and the names that a host or an author of plug-ins needs and that the crate does not have: sinks, scopes, turns, and
//! the functions that make values.
#![tactic(auto)]

/// Errors.
pub mod error {
    pub use liquid_error::report::{Context, Report, Trace};
    pub use liquid_error::{
        Cause, CauseOf, CloneableError, Error, FnKey, Key, MadeText, Place, Result,
        ResultLiquidChainExt, ResultLiquidExt, ResultLiquidReplaceExt,
    };
}

/// Values.
pub mod model {
    pub use liquid_dates::{Date, DateError, DateFormatError, DateTime};
    pub use liquid_json::{
        from_value, into_object, into_value, object_from_str, to_object, to_scalar, to_value,
    };
    pub use liquid_paths::{Path, PathIter, PathText, find, find_after, step, try_find};
    pub use liquid_scalar::{Scalar, ScalarCow, ScalarOf, ScalarRender, ScalarSource, ScalarText};
    pub use liquid_value::contents::{is_empty_array, is_empty_object};
    pub use liquid_value::render::{ValueRender, ValueSource};
    pub use liquid_value::{
        Array, Object, SharedArray, SharedObject, State, Value, ValueCow, ValueViewCmp,
    };
    pub use liquid_views::{
        ArrayView, ObjectIndex, ObjectRender, ObjectSource, ObjectView, ValueView, ViewKind,
        ViewRender, ViewSource, array_of, object_of, scalar_of,
    };

    /// An object, its entries and its iterators.
    pub mod map {
        pub use liquid_value::Object;
        pub use liquid_value::map::{
            Entry, IntoIter, Iter, Keys, OccupiedEntry, VacantEntry, Values,
        };
        pub use liquid_value::steps::{
            step_over_entries, step_over_keys, step_over_owned_entries, step_over_values,
        };
    }
}

/// Laws: functions that do nothing, whose contracts state what is true of all values, texts and frames.
pub mod laws {
    /// Of the grammar: covers, elements and matches.
    pub mod grammar {
        pub use liquid_grammar::{
            elements_joined_are_the_text, matches_take_bytes, no_index_at_close_bracket,
            no_opener_inside_raw, one_cover, one_element, one_match, parts_are_matches,
            spans_are_slices, value_law,
        };
    }

    /// Of dates and patterns.
    pub mod dates {
        pub use liquid_dates::{
            patterns_have_one_reading, printed_date_times_are_read_back,
            printed_dates_are_read_back,
        };
    }

    /// Of the comparisons of scalars.
    pub mod scalars {
        pub use liquid_scalar::scalar::{
            equal_in_order_is_loosely_equal, hash_agrees_with_equality,
            loose_equality_is_reflexive, loose_equality_is_symmetric, order_swapped_is_reversed,
            strict_equality_is_equivalence, strictly_equal_is_loosely_equal,
        };
    }

    /// Of the comparisons of values, and of the order of an object's entries.
    pub mod values {
        pub use liquid_value::laws::{
            entries_stand_in_name_order, equal_in_order_is_loosely_equal,
            hash_agrees_with_equality, loose_equality_is_not_transitive,
            loose_equality_is_reflexive, loose_equality_is_symmetric,
            loose_equality_of_objects_goes_by_name, order_swapped_is_reversed,
            strict_equality_is_equivalence,
        };
    }

    /// Of views.
    pub mod views {
        pub use liquid_views::laws::contains_key_agrees_with_get;
    }

    /// Of paths.
    pub mod paths {
        pub use liquid_paths::find_agrees_with_try_find;
    }

    /// Of expressions and of what filters see.
    pub mod plugins {
        pub use liquid_plugins::{
            evaluate_agrees_with_try_evaluate, evaluate_gives_what_is_tried, filters_see_enough,
            lenient_evaluate_agrees_with_try_evaluate, paths_agree_with_tried_paths,
            variables_give_tried_paths,
        };
    }

    /// Of stores of partials.
    pub mod partials {
        pub use liquid_partials::{few_readings, one_store, stores_agree};
    }

    /// Of parsing.
    pub mod parser {
        pub use liquid_parser::one_reading;
    }

    /// Of the two forms of scopes.
    pub mod scopes {
        pub use liquid_scopes::chained_and_flat_scopes_answer_alike;
    }

    /// Of runs in a sandbox and in isolation, and of checkpoints.
    pub mod template {
        pub use liquid_template::{
            checkpoints_count_turns, isolated_outsides_agree, isolated_runs_are_apart,
            outsides_agree, sandboxed_runs_are_isolated,
        };
    }

    /// Of names and frames.
    pub mod runtime {
        pub use liquid_runtime::{
            get_agrees_with_try_get, global_frame_keeps_names, globals_are_seen, left_names_first,
            lenient_get_agrees_with_try_get, roots_are_the_names_seen,
            set_global_changes_no_other_name, set_index_changes_no_other_name, stack_names_first,
        };
    }
}

/// From text to nodes, and the plug-ins of a language: what they are made of and how they describe themselves.
pub mod parser {
    pub use liquid_parser::{
        BLOCK_LIMIT, BRIEF_LIMIT, BlockBody, BlockElement, BlockReflection, Brief, Exp,
        InvalidLiquidToken, Language, NoPlugin, Node, ParseBlock, ParseTag, Raw, Tag, TagBlock,
        TagReflection, TagToken, TagTokenIter, TryMatchToken, parse, parse_variable,
    };
    pub use liquid_plugins::{
        Bytes, ChainMark, Discreet, Filter, FilterArguments, FilterChain, FilterParameters,
        FilterParametersReflection, FilterReflection, ListOf, Meant, ParameterReflection,
        ParseFilter, PluginNames, PluginRegistry, Plugins, TreeMark, call_filter,
    };
}

/// Partials: sources of texts, and the stores that are compiled from them.
pub mod partials {
    pub use liquid_partials::{
        EagerCompiler, EagerStore, InMemorySource, LazyCompiler, LazyStore, OnDemandCompiler,
        OnDemandStore, PartialCompiler, PartialSource,
    };
    pub use liquid_template::unknown_partial;
}

/// Names and frames, expressions, and templates rendered over them.
pub mod runtime {
    pub use liquid_plugins::{Expression, ExpressionMark, Renderable, Turn, Variable, VariableOf};
    pub use liquid_runtime::{
        BuiltRuntime, Counts, Frame, Fresh, GlobalFrame, IndexFrame, Interrupt, InterruptRegister,
        Listed, LoopFrame, LoopItem, Registers, Runtime, RuntimeBuilder, RuntimeCore,
        SandboxedStackFrame, Scopes, Seen, StackFrame,
    };
    pub use liquid_scopes::{ChainedScopes, FlatScopes, Looks};
    pub use liquid_template::{PartialStore, Template};
}

pub use liquid_dates::{DateError, DateFormatError};
pub use liquid_error::{Cause, Error, Place, Result};
pub use liquid_json::{to_object, to_value};
pub use liquid_parser::{
    BlockBody, BlockReflection, Language, NoPlugin, Node, ParseBlock, ParseTag, TagBlock,
    TagReflection, TagTokenIter,
};
pub use liquid_partials::{EagerStore, LazyStore, OnDemandStore, render_page_in, render_source};
pub use liquid_plugins::{
    Discreet, Expression, Filter, FilterParameters, FilterReflection, ParseFilter, Plugins,
    Renderable, Turn, call_filter,
};
pub use liquid_runtime::names::no_names;
pub use liquid_runtime::{
    BuiltRuntime, Frame, Fresh, IndexFrame, Leniency, Runtime, RuntimeBuilder, Scopes,
};
pub use liquid_scopes::{ChainedScopes, FlatScopes, Looks};
pub use liquid_template::{
    Gate, GatedSink, History, Limits, PartialStore, Sink, SinkFault, Template, TextSink, Watch,
    Watched, WriterSink,
};
pub use liquid_value::{Object, SharedArray, SharedObject, Value, ValueCow};
pub use liquid_views::{ObjectView, ValueView, array_of, object_of, scalar_of};
