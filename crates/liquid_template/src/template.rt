//! Templates.
ghost use Rattle.std.specs.Prelude.{◌≡◌};
ghost use Rattle.liquid_template.specs.meaning.TemplateOf.{own_nodes};

use liquid_plugins::Node;

/// A parsed template.
#[derive(Drop)]
pub struct Template<X, T, B> {
    nodes: Vec<Node<X, T, B>>,
}

impl<X, T, B> Template<X, T, B> {
    /// Returns the template of these nodes, in order.
    pub fn new(nodes: Vec<Node<X, T, B>>) -> Template<X, T, B>
        ensures { own_nodes result ≡ nodes.items }
    {
        Template { nodes }
    }

    /// Returns the nodes, in order.
    pub fn nodes(&self) -> &[Node<X, T, B>]
        ensures { result.now ≡ own_nodes self.now }
    {
        self.nodes.as_slice()
    }
}
