//! Where the renderer's pieces go: the text that is captured, otherwise the caller's sink, after its gate was asked.
ghost use Rattle.std.specs.Prelude.{◌≡◌, [], IsOk, IsSome, None, Some, IfSome, string_bytes};
ghost use Rattle.liquid_error.specs.meaning.Told.{told};
ghost use Rattle.liquid_template.specs.meaning.Outcome.{was_stopped};
ghost use Rattle.liquid_template.specs.meaning.Output.{Output, gated, ungated};
ghost use Rattle.liquid_template.specs.steps.PieceOut.{PieceOut};
ghost use Rattle.liquid_template.specs.steps.Place.{Place, TurnAsked, Swapped, place, target, around, text_of};

use crate::gate::{Gate, GatedSink};
use crate::piece::write_piece;
use crate::sink::Sink;
use crate::trace::refuse;
use liquid_error::Error;
use std::alloc::Global;
use std::marker::PhantomData;
use std::mem;

/// How a sink is written to: with a gate that is asked first, or without.
pub(crate) trait Ask<K> {
    // what the sink took, and what its gate was asked
    ghost output: { K → Output };

    fn turn(sink: &mut K) -> bool
        ensures { TurnAsked (output sink.old) (output sink.new) result };

    fn put(alloc: Global, sink: &mut K, piece: &str, answer: &mut Result<(), Error>)
        requires { IsOk answer.old }
        ensures { PieceOut piece.now (output sink.old) (output sink.new) answer.new };
}

/// Without a gate, everything passes.
pub(crate) struct NoGate;

impl<K: Sink> Ask<K> for NoGate {
    ghost output = { λ sink. ungated (K.sunk sink) };

    #[inline(always)]
    fn turn(_sink: &mut K) -> bool {
        true
    }

    #[inline(always)]
    fn put(alloc: Global, sink: &mut K, piece: &str, answer: &mut Result<(), Error>) {
        write_piece(alloc, sink, piece, answer)
    }
}

/// The gate is asked for each turn, and for each piece that is not empty.
pub(crate) struct WithGate;

impl<K: Sink, G: Gate> Ask<GatedSink<K, G>> for WithGate {
    ghost output = { λ page. gated (K.sunk page.sink) (G.gated page.gate) };

    fn turn(page: &mut GatedSink<K, G>) -> bool {
        page.gate.turn()
    }

    fn put(alloc: Global, page: &mut GatedSink<K, G>, piece: &str, answer: &mut Result<(), Error>) {
        if piece.is_empty() {
            return;
        }
        if page.gate.bytes(piece.len() as u64) {
            write_piece(alloc, &mut page.sink, piece, answer)
        } else {
            refuse(answer, stopped_error(alloc))
        }
    }
}

/// Returns the error of a rendering that a gate stopped.
#[inline(never)]
pub(crate) fn stopped_error(alloc: Global) -> Error
    ensures { IfSome (told result) (λ r. r ≡ was_stopped []) }
{
    Error::with_msg(alloc, "Rendering was stopped")
}

/// Where the cycle puts its pieces: the innermost open text, otherwise the caller's sink.
pub(crate) trait Out {
    // the caller's sink with what its gate was asked, the text that is open, and what is borrowed
    ghost place: { Self → Place };

    /// Asks the gate for a turn.
    fn pass_turn(&mut self) -> bool
        ensures turn { TurnAsked (target (place self.old)) (target (place self.new)) result }
        ensures around { around (place self.new) ≡ around (place self.old) };

    /// Puts a piece to the open text, otherwise to the sink. `answer` is the error, if there is one.
    fn put(&mut self, alloc: Global, piece: &str, answer: &mut Result<(), Error>)
        requires { IsOk answer.old }
        ensures put { PieceOut piece.now (target (place self.old)) (target (place self.new)) answer.new }
        ensures around { around (place self.new) ≡ around (place self.old) };

    /// Opens an empty text, and returns the one that was open.
    fn open(&mut self, alloc: Global) -> Option<String>
        ensures outer { text_of result ≡ (place self.old).text }
        ensures opened { Swapped (place self.old) (Some []) (place self.new) };

    /// Closes the open text and returns it. The outer one is open again.
    fn close(&mut self, outer: Option<String>) -> String
        requires { IsSome (place self.old).text }
        ensures text { Some (string_bytes result) ≡ (place self.old).text }
        ensures closed { Swapped (place self.old) (text_of outer) (place self.new) };
}

/// The caller's sink, and the innermost open text. The texts around it are kept by the calls that opened the next.
#[derive(Drop)]
pub(crate) struct Outlet<'k, K, A: Ask<K>> {
    sink: &'k mut K,
    text: Option<String>,
    asks: PhantomData<A>,
}

impl<'k, K, A: Ask<K>> Outlet<'k, K, A> {
    /// Returns the sink, with no text open.
    pub(crate) fn new(sink: &'k mut K) -> Outlet<'k, K, A>
        ensures { (⟦<Outlet<'k, K, A> as Out>⟧.place result) ≡ place (A.output sink.entry.now) None sink.entry.ghost_name }
    {
        Outlet {
            sink,
            text: None,
            asks: PhantomData,
        }
    }

    /// Returns the sink, with no text open any more.
    pub(crate) fn into_sink(self) -> &'k mut K
        ensures output { A.output result.now ≡ (⟦<Outlet<'k, K, A> as Out>⟧.place self.entry).output }
        ensures name { result.ghost_name ≡ (⟦<Outlet<'k, K, A> as Out>⟧.place self.entry).sink_name }
    {
        let Outlet { sink, text, asks } = self;
        let _asks = asks;
        drop(text);
        sink
    }
}

impl<'k, K, A: Ask<K>> Out for Outlet<'k, K, A> {
    ghost place = { λ out. place (A.output out.sink.now) (text_of out.text) out.sink.ghost_name };

    #[inline(always)]
    fn pass_turn(&mut self) -> bool {
        A::turn(&mut *self.sink)
    }

    #[inline(always)]
    fn put(&mut self, alloc: Global, piece: &str, answer: &mut Result<(), Error>) {
        match &mut self.text {
            Some(text) => match text.push_str(piece) {
                Ok(()) => {}
                Err(_) => refuse(answer, Error::Memory),
            },
            None => A::put(alloc, &mut *self.sink, piece, answer),
        }
    }

    fn open(&mut self, alloc: Global) -> Option<String> {
        mem::replace(&mut self.text, Some(String::new(alloc)))
    }

    fn close(&mut self, outer: Option<String>) -> String {
        match mem::replace(&mut self.text, outer) {
            Some(text) => text,
            None => unreachable!(),
        }
    }
}
