//! The tag `badge`, which writes a value in brackets.
ghost use Rattle.std.specs.Prelude.{◌≡◌, IfOk, codes, string_bytes};
ghost use Rattle.liquid_error.specs.meaning.Told.{Gives};
ghost use Rattle.liquid_value.specs.meaning.View.{view as tree_of};
ghost use Rattle.liquid_plugins.specs.meaning.Evaluation.{evaluate};
ghost use Rattle.liquid_plugins.specs.meaning.ExpressionOf.{expression_of};
ghost use Rattle.liquid_plugins.specs.meaning.TurnOf.{turn_of};
ghost use Rattle.example_shop.specs.laws.BadgeLaws.{badge_hides};
ghost use Rattle.example_shop.specs.meaning.Badges.{badge, badge_given, badge_turn, badged};

use liquid_core::Error;
use liquid_core::model::{Value, ValueRender};
use liquid_core::parser::{
    Discreet, Meant, ParseFilter, ParseTag, PluginRegistry, TagReflection, TagTokenIter,
};
use liquid_core::runtime::{Expression, ExpressionMark, Fresh, Renderable, Runtime, Turn};
use std::alloc::{AllocError, Global};

/// The plug-in, which reads the tag's tokens.
#[derive(Debug, Clone, Copy, PartialEq, Eq, Drop)]
pub struct Badge;

impl TagReflection for Badge {
    ghost tag_name = { λ _. codes "badge" };

    fn tag(&self) -> &str {
        "badge"
    }

    fn description(&self) -> &str {
        "Writes a value in brackets."
    }
}

impl<F: ParseFilter> ParseTag<F> for Badge {
    type Node = BadgeNode;

    ghost gives = { λ _ _ ts. badge_given ts };

    fn parse(
        &self,
        alloc: Global,
        tokens: TagTokenIter<'_>,
        _filters: &PluginRegistry<F>,
    ) -> Result<BadgeNode, Error> {
        let mut tokens = tokens;
        let value = tokens.next_value(alloc, "Value expected")?;
        tokens.expect_nothing(alloc)?;
        Ok(BadgeNode { value })
    }
}

/// The node, which is rendered.
#[derive(Drop)]
pub struct BadgeNode {
    pub value: Expression,
}

impl Meant for BadgeNode {
    type Shape = ExpressionMark;

    ghost shape = { λ node. expression_of node.value };
}

/// It takes one turn; the progress is the number of turns.
impl<V: Fresh> Renderable<V> for BadgeNode {
    type Progress = u64;

    ghost means = { badge };

    fn start<R: Runtime<Register = V>>(
        &self,
        _alloc: Global,
        _runtime: &mut R,
    ) -> Result<u64, Error> {
        Ok(1)
    }

    fn turns(progress: &u64) -> u64 {
        *progress
    }

    fn turn<R: Runtime<Register = V>>(
        &self,
        alloc: Global,
        _progress: &mut u64,
        runtime: &mut R,
    ) -> Result<Turn, Error> {
        badge_turn(alloc, &self.value, &*runtime)
    }

    fn caught(&self, _progress: &mut u64, text: String) {
        drop(text);
    }
}

/// The promise that lets it be rendered in a sandbox.
impl<V: Fresh> Discreet<V> for BadgeNode {
    ghost hides = { badge_hides };
}

/// Returns the turn that writes a value in brackets.
fn badge_turn<R: Runtime>(alloc: Global, value: &Expression, runtime: &R) -> Result<Turn, Error>
    ensures { Gives turn_of result (badge_turn (evaluate (R.view runtime.now) (expression_of value.now))) }
{
    let value = value.evaluate(alloc, runtime)?;
    Ok(Turn::Text(write_badge(alloc, value.as_view())?))
}

/// Returns the text of a value in brackets.
fn write_badge(alloc: Global, value: &Value) -> Result<String, AllocError>
    ensures { IfOk result (λ text. string_bytes text ≡ badged (tree_of value.now)) }
{
    let value = ValueRender::new(value);
    format!(in alloc; "[{value}]")
}
