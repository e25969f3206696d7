//! The values of expressions.

ghost use Rattle.std.specs.Prelude.{◌≡◌, []};
ghost use Rattle.vcp_typed.specs.Meaning.{value as value_of};
ghost use Rattle.vcp_typed.specs.TExprViews.{texpr_tree, texpr_trees};
ghost use Rattle.st_plain.specs.Arguments.{argument_at};
ghost use Rattle.st_plain.specs.Outcomes.{outside};
ghost use Rattle.st_plain.specs.Sound.{SoundExpr, SoundExprs};

use crate::operators::{apply, operate, sign};
use crate::stop::Stop;
use vcp_base::Row;
use vcp_typed::{TExpr, trees_of_nodes, values_fit};

/// The value of an expression where the slots have these values, or its stop.
#[cycle(expr)]
pub fn evaluate(e: &TExpr, values: &Row) -> Result<i64, Stop>
    requires { SoundExpr (texpr_tree e.now) values.now }
    ensures { outside result ≡ value_of [] (texpr_tree e.now) values.now }
{
    match e {
        TExpr::Lit { value, .. } => Ok(*value),
        TExpr::Get { slot, .. } => Ok(values.at(*slot as usize)),
        TExpr::Widen { arg, .. } => operand(arg, values),
        TExpr::Unary { op, ty, arg, spot } => {
            values_fit();
            let a = operand(arg, values)?;
            sign(*op, *ty, *spot, a)
        }
        TExpr::Binary {
            op,
            ty,
            left,
            right,
            spot,
        } => {
            let a = operand(left, values)?;
            let b = operand(right, values)?;
            operate(*op, *ty, *spot, a, b)
        }
        TExpr::Call {
            fun,
            ty,
            args,
            spot,
        } => {
            trees_of_nodes();
            let args: &[TExpr] = &args.items;
            let a = argument(args, 0, values)?;
            let b = argument(args, 1, values)?;
            let c = argument(args, 2, values)?;
            apply(*fun, *ty, *spot, a, b, c)
        }
    }
}

/// The value of an operand, or its stop. That of a literal or a variable takes no call.
#[cycle(expr)]
#[inline(always)]
fn operand(e: &TExpr, values: &Row) -> Result<i64, Stop>
    requires { SoundExpr (texpr_tree e.now) values.now }
    ensures { outside result ≡ value_of [] (texpr_tree e.now) values.now }
{
    match e {
        TExpr::Lit { value, .. } => Ok(*value),
        TExpr::Get { slot, .. } => Ok(values.at(*slot as usize)),
        _ => evaluate(e, values),
    }
}

/// The value of the argument at a place, and 0 where there is none.
#[cycle(expr)]
fn argument(args: &[TExpr], i: usize, values: &Row) -> Result<i64, Stop>
    requires { SoundExprs (texpr_trees args.now) values.now }
    ensures { outside result ≡ argument_at (texpr_trees args.now) i values.now }
{
    if i < args.len() {
        operand(&args[i], values)
    } else {
        Ok(0)
    }
}
