//! The tags `include` and `render`.
ghost use Rattle.liquid_error.specs.meaning.Told.{Gives};
ghost use Rattle.liquid_parser.specs.meaning.Handed.{Tokens};
ghost use Rattle.liquid_parser.specs.meaning.Plugins.{AreTokens};
ghost use Rattle.liquid_std.specs.meaning.TagPlugins.{call_node_given};
ghost use Rattle.liquid_std.specs.meaning.Tags.{tag_of};

use crate::inclusion::ReadCall;
use crate::inclusion::read_call::read_call;
use crate::tags::StdTag;
use liquid_core::{Error, Filter, TagTokenIter};
use liquid_tags::{Inclusion, TagNode};
use std::alloc::Global;

/// Reads the node of an `include` or a `render`.
pub(crate) fn parse_call<X: Filter>(
    alloc: Global,
    inclusion: Inclusion,
    tokens: TagTokenIter<'_>,
) -> Result<StdTag<X>, Error>
    ensures { (ts : Tokens) → AreTokens tokens.entry ts → Gives (tag_of X.shape) result (call_node_given inclusion ts) }
{
    match read_call(alloc, inclusion, tokens)? {
        ReadCall::Alone(call) => {
            let node = TagNode::Includes(inclusion, Box::new(alloc, call)?);
            Ok(StdTag::Library(node))
        }
        ReadCall::Passing(call) => Ok(StdTag::Calls(Box::new(alloc, call)?)),
    }
}
