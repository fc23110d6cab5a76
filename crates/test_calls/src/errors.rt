//! The calls that add to the error of a result.
use crate::numbers::is_text;
use liquid_error::{
    Error, FnKey, Key, ResultLiquidChainExt, ResultLiquidExt, ResultLiquidReplaceExt,
};
use std::alloc::{AllocError, Global};

/// Returns `true` if an error prints this text.
fn prints(alloc: Global, error: &Error, text: &str) -> bool {
    is_text(error.to_string(alloc), text)
}

/// Returns an error of this text.
fn make_refusal(alloc: Global) -> liquid_error::Result<u8> {
    Error::with_msg(alloc, "a").into_err()
}

/// Returns `true` if the cause of an error prints this text, which is empty for an error without a cause.
fn cause_prints(alloc: Global, error: &Error, text: &str) -> bool {
    match error.source() {
        Some(cause) => is_text(cause.to_string(alloc), text),
        None => text.is_empty(),
    }
}

/// Returns `true` if an answer is an error that prints this text, and its cause the other one.
fn shows(alloc: Global, answer: liquid_error::Result<u8>, text: &str, cause: &str) -> bool {
    match answer {
        Ok(_) => false,
        Err(error) => prints(alloc, &error, text) & cause_prints(alloc, &error, cause),
    }
}

/// Returns a text that is made.
fn make_text(alloc: Global) -> Result<String, AllocError> {
    String::from_str(alloc, "b")
}

/// Returns `true` if a new error has the old one as its cause, or replaces it, if its text is given.
fn texts_are_chained(alloc: Global) -> bool {
    let new = "liquid: b\n";
    let starved: liquid_error::Result<u8> = Err(Error::Memory);
    let memory = "liquid: out of memory\n";
    shows(alloc, starved.replace(alloc, "b"), memory, "")
        && shows(
            alloc,
            make_refusal(alloc).chain(alloc, "b"),
            new,
            "liquid: a\n",
        )
        && shows(
            alloc,
            make_refusal(alloc).lossy_chain(alloc, "b"),
            new,
            "liquid: a\n\n",
        )
        && shows(alloc, make_refusal(alloc).replace(alloc, "b"), new, "")
}

/// Returns `true` if a new error has the old one as its cause, or replaces it, if a call makes its text.
fn made_texts_are_chained(alloc: Global) -> bool {
    let new = "liquid: b\n";
    let text = || make_text(alloc);
    shows(
        alloc,
        make_refusal(alloc).chain_with(alloc, text),
        new,
        "liquid: a\n",
    ) && shows(
        alloc,
        make_refusal(alloc).lossy_chain_with(alloc, text),
        new,
        "liquid: a\n\n",
    ) && shows(
        alloc,
        make_refusal(alloc).replace_with(alloc, text),
        new,
        "",
    )
}

/// Returns `true` if a context is added whose name and value are given.
fn has_context(alloc: Global) -> bool {
    let with = "liquid: a\n  with:\n    k=v\n";
    shows(
        alloc,
        make_refusal(alloc).context_key("k").value(alloc, "v"),
        with,
        "",
    )
}

/// Returns `true` if a context is added whose name or value is made.
fn has_made_contexts(alloc: Global) -> bool {
    let made = || make_text(alloc);
    let with = "liquid: a\n  with:\n    b=b\n";
    shows(
        alloc,
        Key::value_with(make_refusal(alloc).context_key("b"), alloc, made),
        with,
        "",
    ) && shows(
        alloc,
        make_refusal(alloc).context_key_with(made).value(alloc, "b"),
        with,
        "",
    ) && shows(
        alloc,
        FnKey::value_with(make_refusal(alloc).context_key_with(made), made),
        with,
        "",
    )
}

/// Returns `true` if each call adds what it should.
pub fn errors_answer(alloc: Global) -> bool {
    texts_are_chained(alloc)
        && made_texts_are_chained(alloc)
        && has_context(alloc)
        && has_made_contexts(alloc)
}
