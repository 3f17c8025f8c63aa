//! Operators, by their texts.

ghost use Rattle.erl_grammar.specs.Operators.{unary_token, operator_token};
ghost use Rattle.table_trees.specs.Operators.{IsTokenOf};

use erl_tree::{BinaryOp, UnaryOp};

/// An operator with one side.
pub(crate) fn unary_text(operator: UnaryOp) -> &'static [u8]
    ensures { IsTokenOf result.now (unary_token operator) }
{
    match operator {
        UnaryOp::Plus => b"+",
        UnaryOp::Minus => b"-",
        UnaryOp::Not => b"not",
    }
}

/// An operator between two sides.
pub(crate) fn binary_text(operator: BinaryOp) -> &'static [u8]
    ensures { IsTokenOf result.now (operator_token operator) }
{
    match operator {
        BinaryOp::Orelse => b"orelse",
        BinaryOp::Andalso => b"andalso",
        BinaryOp::Eq => b"==",
        BinaryOp::Ne => b"/=",
        BinaryOp::ExactEq => b"=:=",
        BinaryOp::ExactNe => b"=/=",
        BinaryOp::Lt => b"<",
        BinaryOp::Gt => b">",
        BinaryOp::Le => b"=<",
        BinaryOp::Ge => b">=",
        BinaryOp::Append => b"++",
        BinaryOp::Add => b"+",
        BinaryOp::Sub => b"-",
        BinaryOp::Or => b"or",
        BinaryOp::Xor => b"xor",
        BinaryOp::Mul => b"*",
        BinaryOp::Div => b"div",
        BinaryOp::Rem => b"rem",
        BinaryOp::And => b"and",
    }
}
