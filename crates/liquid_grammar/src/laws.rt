//! Laws of the definitions: each is the clause of a function that does nothing.
ghost use Rattle.std.specs.Prelude.{◌≡◌, ℕ, List, ◌<◌, length, drop, ◌↔◌};
ghost use Rattle.liquid_grammar.specs.meaning.Grammar.{White, Opens, Identifier};
ghost use Rattle.liquid_grammar.specs.meaning.Literals.{LiteralRule};
ghost use Rattle.liquid_grammar.specs.meaning.Values.{Value, ValueOver, ValueRule, IndexRule, CloseBracket};
ghost use Rattle.liquid_grammar.specs.meaning.Tokens.{Chain, Tag, ArgumentRule, FilterRule, ChainRule, TokenRule, ExpressionRule, TagRule};
ghost use Rattle.liquid_grammar.specs.meaning.Matches.{Single, Takes};
ghost use Rattle.liquid_grammar.specs.meaning.Cover.{Element, raw, IsElement, Cover, OnlyCover, joined};
ghost use Rattle.liquid_grammar.specs.meaning.Elements.{Taken};
ghost use Rattle.liquid_grammar.specs.meaning.Rules.{Begins, Repeated, ◌▷◌};
ghost use Rattle.liquid_grammar.specs.meaning.Parts.{IsChain};
ghost use Rattle.liquid_grammar.specs.laws.Spans.{AreSlices, chain_spans, tag_spans};

/// Each text has one cover.
#[tactic(auto, using(crate::proofs::CoverLemmas::cover_of))]
pub fn one_cover()
    ensures { (s : List ℕ) → OnlyCover s }
{}

/// At most one element begins at a place, and it leaves one rest.
#[tactic(auto, using(crate::proofs::CoverLemmas::same_element))]
pub fn one_element()
    ensures { (s r₁ r₂ : List ℕ) (e₁ e₂ : Element) → IsElement s r₁ e₁ → IsElement s r₂ e₂ → ◌≡◌ {A = Taken} (e₁, r₁) (e₂, r₂) }
{}

/// The texts of the elements of a cover, joined, are the text.
#[tactic(auto, using(crate::proofs::CoverLemmas::joined_cover))]
pub fn elements_joined_are_the_text()
    ensures { (s : List ℕ) (es : List Element) → Cover s es → joined es ≡ s }
{}

/// No opener begins inside raw text.
pub fn no_opener_inside_raw()
    ensures { (s rest text : List ℕ) (k : ℕ) → IsElement s rest (raw text) → k < length text → ¬ (Opens (drop k s)) }
{}

/// Each rule relates at most one end and shape to a text.
pub fn one_match()
    ensures whites { Single White }
    ensures identifiers { Single Identifier }
    ensures literals { Single LiteralRule }
    ensures values { Single ValueRule }
    ensures indexes { Single IndexRule }
    ensures close_brackets { Single CloseBracket }
    ensures arguments { Single ArgumentRule }
    ensures filters { Single FilterRule }
    ensures chains { Single ChainRule }
    ensures tokens { Single TokenRule }
    ensures expressions { Single ExpressionRule }
    ensures tags { Single TagRule }
{}

/// A value is a literal or a variable over values, no matter how deep brackets are nested.
#[tactic(auto, using(crate::proofs::ValueLaw::value_law))]
pub fn value_law()
    ensures { (s rest : List ℕ) (v : Value) → ValueRule s rest v ↔ ValueOver ValueRule s rest v }
{}

/// Each match of these rules takes at least one byte.
pub fn matches_take_bytes()
    ensures identifiers { Takes Identifier }
    ensures values { Takes ValueRule }
    ensures indexes { Takes IndexRule }
    ensures filters { Takes FilterRule }
    ensures tokens { Takes TokenRule }
{}

/// No index begins where a close bracket begins.
#[tactic(auto, using(crate::proofs::IndexPartLemmas::close_or_index))]
pub fn no_index_at_close_bracket()
    ensures { (s : List ℕ) → Begins CloseBracket s → ¬ (Begins IndexRule s) }
{}

/// The parts of a match are matches themselves, at the places that the shape names.
pub fn parts_are_matches()
    ensures chains { (s rest : List ℕ) (chain : Chain) → ChainRule s rest chain → IsChain s rest chain }
    ensures expressions { (s rest : List ℕ) (chain : Chain) → ExpressionRule s rest chain → ChainRule chain.place chain.following chain }
    ensures tags { (s rest : List ℕ) (tag : Tag) → TagRule s rest tag
        → Repeated (White ▷ TokenRule) tag.1.place tag.1.following tag.1.what }
{}

/// Each part of an expression or a tag is a slice of the text, and lies between characters.
pub fn spans_are_slices(text: &str)
    ensures expressions { (rest : List ℕ) (chain : Chain) → ExpressionRule text.now rest chain → AreSlices text.now (chain_spans chain) }
    ensures tags { (rest : List ℕ) (tag : Tag) → TagRule text.now rest tag → AreSlices text.now (tag_spans tag) }
{}
