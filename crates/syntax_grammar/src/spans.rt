//! Spans of terms.

ghost use Rattle.std.specs.Prelude.{◌≡◌};
ghost use Rattle.syntax_grammar.specs.Nodes as nodes;
ghost use Rattle.syntax_grammar.specs.View.{term};

use crate::tree::{Expr, Span};

/// The span of a term.
#[tactic(auto, unfolding(crate::specs::Nodes::span_of))]
pub fn span_of(e: &Expr) -> Span
    ensures { result ≡ nodes.span_of (term e.now) }
{
    match e {
        Expr::Let { span, .. }
        | Expr::If { span, .. }
        | Expr::Binary { span, .. }
        | Expr::Prefix { span, .. }
        | Expr::Get { span, .. }
        | Expr::Put { span, .. }
        | Expr::Word { span, .. }
        | Expr::Flag { span, .. }
        | Expr::Call { span, .. }
        | Expr::Make { span, .. }
        | Expr::Op { span, .. }
        | Expr::Cast { span, .. }
        | Expr::Match { span, .. }
        | Expr::Paren { span, .. } => *span,
        Expr::Var(name) => name.span,
    }
}
