//! Nodes of two types as nodes of one.
ghost use Rattle.liquid_extend.specs.laws.Hiding.{hides_beside};
ghost use Rattle.liquid_extend.specs.meaning.Nodes.{nodes_beside};

use crate::beside::one_of::Beside;
use liquid_error::Error;
use liquid_plugins::{Discreet, Renderable, Turn};
use liquid_runtime::{Fresh, LoopFrame, Runtime};
use std::alloc::Global;

impl<V: Fresh, L: Renderable<V>, O: Renderable<V>> Renderable<V> for Beside<L, O> {
    type Progress = Beside<L::Progress, O::Progress>;

    ghost means = { nodes_beside L.means O.means };

    fn start<R: Runtime<Register = V>>(
        &self,
        alloc: Global,
        runtime: &mut R,
    ) -> Result<Beside<L::Progress, O::Progress>, Error> {
        match self {
            Beside::Library(node) => Ok(Beside::Library(node.start(alloc, runtime)?)),
            Beside::Own(node) => Ok(Beside::Own(node.start(alloc, runtime)?)),
        }
    }

    fn turns(progress: &Beside<L::Progress, O::Progress>) -> u64 {
        match progress {
            Beside::Library(progress) => L::turns(progress),
            Beside::Own(progress) => O::turns(progress),
        }
    }

    // A node is handed the progress that it has made. With one of the other type it ends.
    fn turn<R: Runtime<Register = V>>(
        &self,
        alloc: Global,
        progress: &mut Beside<L::Progress, O::Progress>,
        runtime: &mut R,
    ) -> Result<Turn, Error> {
        match (self, progress) {
            (Beside::Library(node), Beside::Library(progress)) => {
                node.turn(alloc, progress, runtime)
            }
            (Beside::Own(node), Beside::Own(progress)) => node.turn(alloc, progress, runtime),
            _ => Ok(Turn::End),
        }
    }

    fn caught(&self, progress: &mut Beside<L::Progress, O::Progress>, text: String) {
        match (self, progress) {
            (Beside::Library(node), Beside::Library(progress)) => node.caught(progress, text),
            (Beside::Own(node), Beside::Own(progress)) => node.caught(progress, text),
            _ => drop(text),
        }
    }

    fn recycle(&self, progress: &mut Beside<L::Progress, O::Progress>, frame: Box<LoopFrame>) {
        match (self, progress) {
            (Beside::Library(node), Beside::Library(progress)) => node.recycle(progress, frame),
            (Beside::Own(node), Beside::Own(progress)) => node.recycle(progress, frame),
            _ => drop(frame),
        }
    }
}

impl<V: Fresh, L: Discreet<V>, O: Discreet<V>> Discreet<V> for Beside<L, O> {
    ghost hides = { hides_beside L.hides O.hides };
}
