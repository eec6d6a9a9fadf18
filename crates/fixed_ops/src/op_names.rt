// How operations are written.
ghost use Rattle.std.specs.Prelude.{◌≡◌, ◌≢◌, IfSome, IfNone};
ghost use Rattle.fixed_ops.specs.OpNames.{name_of};
ghost use Rattle.fixed_ops.specs.declared.operation.Op.{Op};

use crate::Op;

/// The bytes that name an operation.
pub fn op_name(op: Op) -> &'static [u8]
    ensures { result.now ≡ name_of op }
{
    match op {
        Op::X => b"var-x",
        Op::Y => b"var-y",
        Op::Z => b"var-z",
        Op::Const => b"const",
        Op::Neg => b"neg",
        Op::Square => b"square",
        Op::Sqrt => b"sqrt",
        Op::Abs => b"abs",
        Op::Floor => b"floor",
        Op::Add => b"add",
        Op::Sub => b"sub",
        Op::Mul => b"mul",
        Op::Div => b"div",
        Op::Min => b"min",
        Op::Max => b"max",
    }
}

/// The operation that a token names, and None exactly where it names none.
pub fn read_op(token: &[u8]) -> Option<Op>
    ensures found { IfSome result (λ op. token.now ≡ name_of op) }
    ensures named { (op : Op) → token.now ≡ name_of op → result ≡ Some op }
    ensures missing { IfNone result ((op : Op) → token.now ≢ name_of op) }
{
    match token {
        b"var-x" => Some(Op::X),
        b"var-y" => Some(Op::Y),
        b"var-z" => Some(Op::Z),
        b"const" => Some(Op::Const),
        b"neg" => Some(Op::Neg),
        b"square" => Some(Op::Square),
        b"sqrt" => Some(Op::Sqrt),
        b"abs" => Some(Op::Abs),
        b"floor" => Some(Op::Floor),
        b"add" => Some(Op::Add),
        b"sub" => Some(Op::Sub),
        b"mul" => Some(Op::Mul),
        b"div" => Some(Op::Div),
        b"min" => Some(Op::Min),
        b"max" => Some(Op::Max),
        _ => None,
    }
}
