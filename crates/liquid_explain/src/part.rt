//! The parts of an element that may be missing where it can't be read.
ghost use Rattle.std.specs.Prelude.{◌≡◌};
ghost use Rattle.liquid_explain.specs.meaning.Parts as spec;

/// A part of an element.
#[derive(Clone, Copy, Debug, PartialEq, Eq)]
pub enum Part {
    /// The name of a tag.
    TagName,
    /// The name of a filter, after `|`.
    FilterName,
    /// The name of a member, after `.`.
    Member,
    /// A literal or a variable.
    Value,
    /// The quote at the end of a text.
    EndQuote,
    /// `]`, after the value in it.
    CloseBracket,
    /// `..`, between the values of a range.
    Dots,
    /// `)`, after a range.
    CloseParen,
    /// `:`, before the arguments of a filter.
    Colon,
    /// `,`, before another argument.
    Comma,
    /// `|`, before a filter.
    Bar,
    /// A token of a tag.
    Token,
    /// The end of the element.
    Closer,
}

/// A set of parts.
#[derive(Clone, Copy, Debug, PartialEq, Eq)]
pub struct Parts {
    tag_name: bool,
    filter_name: bool,
    member: bool,
    value: bool,
    end_quote: bool,
    close_bracket: bool,
    dots: bool,
    close_paren: bool,
    colon: bool,
    comma: bool,
    bar: bool,
    token: bool,
    closer: bool,
}

const NONE: Parts = Parts {
    tag_name: false,
    filter_name: false,
    member: false,
    value: false,
    end_quote: false,
    close_bracket: false,
    dots: false,
    close_paren: false,
    colon: false,
    comma: false,
    bar: false,
    token: false,
    closer: false,
};

const TAG_NAME: Parts = Parts {
    tag_name: true,
    ..NONE
};

const FILTER_NAME: Parts = Parts {
    filter_name: true,
    ..NONE
};

const MEMBER: Parts = Parts {
    member: true,
    ..NONE
};

const VALUE: Parts = Parts {
    value: true,
    ..NONE
};

const END_QUOTE: Parts = Parts {
    end_quote: true,
    ..NONE
};

const CLOSE_BRACKET: Parts = Parts {
    close_bracket: true,
    ..NONE
};

const DOTS: Parts = Parts { dots: true, ..NONE };

const CLOSE_PAREN: Parts = Parts {
    close_paren: true,
    ..NONE
};

const COLON: Parts = Parts {
    colon: true,
    ..NONE
};

const COMMA: Parts = Parts {
    comma: true,
    ..NONE
};

const BAR: Parts = Parts { bar: true, ..NONE };

const TOKEN: Parts = Parts {
    token: true,
    ..NONE
};

const CLOSER: Parts = Parts {
    closer: true,
    ..NONE
};

impl Parts {
    /// Returns the set of one part.
    pub(crate) fn only(part: Part) -> Parts
        ensures { result ≡ spec.only part }
    {
        match part {
            Part::TagName => TAG_NAME,
            Part::FilterName => FILTER_NAME,
            Part::Member => MEMBER,
            Part::Value => VALUE,
            Part::EndQuote => END_QUOTE,
            Part::CloseBracket => CLOSE_BRACKET,
            Part::Dots => DOTS,
            Part::CloseParen => CLOSE_PAREN,
            Part::Colon => COLON,
            Part::Comma => COMMA,
            Part::Bar => BAR,
            Part::Token => TOKEN,
            Part::Closer => CLOSER,
        }
    }

    /// Returns the parts that are in one of two sets.
    pub(crate) fn union(self, other: Parts) -> Parts
        ensures { result ≡ spec.union self other }
    {
        Parts {
            tag_name: self.tag_name | other.tag_name,
            filter_name: self.filter_name | other.filter_name,
            member: self.member | other.member,
            value: self.value | other.value,
            end_quote: self.end_quote | other.end_quote,
            close_bracket: self.close_bracket | other.close_bracket,
            dots: self.dots | other.dots,
            close_paren: self.close_paren | other.close_paren,
            colon: self.colon | other.colon,
            comma: self.comma | other.comma,
            bar: self.bar | other.bar,
            token: self.token | other.token,
            closer: self.closer | other.closer,
        }
    }

    /// Returns `true` if the part is in the set.
    pub fn contains(self, part: Part) -> bool
        ensures { result ≡ spec.has self part }
    {
        match part {
            Part::TagName => self.tag_name,
            Part::FilterName => self.filter_name,
            Part::Member => self.member,
            Part::Value => self.value,
            Part::EndQuote => self.end_quote,
            Part::CloseBracket => self.close_bracket,
            Part::Dots => self.dots,
            Part::CloseParen => self.close_paren,
            Part::Colon => self.colon,
            Part::Comma => self.comma,
            Part::Bar => self.bar,
            Part::Token => self.token,
            Part::Closer => self.closer,
        }
    }
}
