//! The nodes of text blocks, and how they are rendered.
ghost use Rattle.liquid_extend.specs.laws.TextHiding.{text_blocks_hide};
ghost use Rattle.liquid_extend.specs.meaning.TextNodes.{text_nodes};

use crate::text_blocks::kind::TextBlock;
use liquid_error::Error;
use liquid_plugins::{Discreet, Meant, Renderable, Turn};
use liquid_runtime::{Frame, Fresh, Runtime};
use std::alloc::Global;

/// A text block of a template.
#[derive(Debug, Clone, Copy, Drop)]
pub struct TextBlockNode<K> {
    pub kind: K,
}

impl<K> Meant for TextBlockNode<K> {
    type Shape = K;

    ghost shape = { λ node. node.kind };
}

/// The first turn captures the body, and the second one writes what the block makes of its text. The
/// progress is that text, once there is one.
impl<K: TextBlock, V: Fresh> Renderable<V> for TextBlockNode<K> {
    type Progress = Option<String>;

    ghost means = { text_nodes K.sense };

    fn start<R: Runtime<Register = V>>(
        &self,
        _alloc: Global,
        _runtime: &mut R,
    ) -> Result<Option<String>, Error> {
        Ok(None)
    }

    fn turns(_progress: &Option<String>) -> u64 {
        2
    }

    fn turn<R: Runtime<Register = V>>(
        &self,
        alloc: Global,
        progress: &mut Option<String>,
        _runtime: &mut R,
    ) -> Result<Turn, Error> {
        match progress {
            None => Ok(Turn::Capture(0, Frame::None, None)),
            Some(body) => Ok(Turn::Text(self.kind.transform(alloc, body.as_str())?)),
        }
    }

    fn caught(&self, progress: &mut Option<String>, text: String) {
        *progress = Some(text);
    }
}

impl<K: TextBlock, V: Fresh> Discreet<V> for TextBlockNode<K> {
    ghost hides = { text_blocks_hide K.sense };
}
