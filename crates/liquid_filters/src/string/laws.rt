//! Laws of the filters on strings. Each function only states its law.
ghost use Rattle.std.specs.Prelude.{◌≡◌, Ok};
ghost use Rattle.liquid_filters.specs.laws.string.Words.{FirstWordsAreKept};
ghost use Rattle.liquid_filters.specs.meaning.string.Encoding.{base64_decoded, base64_encoded};
ghost use Rattle.liquid_filters.specs.meaning.string.Encoding.{base64_url_safe_decoded, base64_url_safe_encoded};
ghost use Rattle.liquid_filters.specs.meaning.string.Written.{written};

/// The base64 of a string decodes to the string.
pub fn base64_is_read_back(text: &str)
    ensures { base64_decoded (base64_encoded (written text.now)) ≡ Ok (written text.now) }
{}

/// The base64 of a string for URLs decodes to the string.
pub fn base64_url_safe_is_read_back(text: &str)
    ensures { base64_url_safe_decoded (base64_url_safe_encoded (written text.now)) ≡ Ok (written text.now) }
{}

/// A string that is truncated to a number of words begins with its first words, if nothing is put at its end.
pub fn first_words_are_kept(text: &str, count: i64)
    ensures { FirstWordsAreKept count text.now }
{}
