//! Which expressions are judged by their first node.

ghost use Rattle.std.specs.Prelude.{◌≡◌, MatchOption};
ghost use Rattle.xpath_core.specs.Judged.{JudgedByFirst, JudgedByValue};

use xpath_operations::{OperandKind, is_converted};
use xpath_syntax::{Expr, Path};

/// The path whose first node decides what a conversion of an expression gives: the expression, if it is a path whose nodes
/// may be taken one by one.
pub(crate) fn judged_by_first(kind: OperandKind, e: &Expr) -> Option<&Path>
    ensures { MatchOption result (JudgedByValue kind e.now) (λ path. JudgedByFirst kind e.now path.now) }
{
    match e {
        Expr::Path(path) => {
            if path.streams && is_converted(kind) {
                Some(path)
            } else {
                None
            }
        }
        Expr::Binary {
            op: _,
            left: _,
            right: _,
        } => None,
        Expr::Minus(_) => None,
        Expr::Literal(_) => None,
        Expr::Number(_) => None,
        Expr::Variable(_) => None,
        Expr::Call { name: _, args: _ } => None,
        Expr::Filter {
            primary: _,
            predicates: _,
            tail: _,
        } => None,
    }
}
