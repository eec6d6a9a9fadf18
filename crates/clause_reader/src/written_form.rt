// An operation with its arguments, as they stand in a line.
ghost use Rattle.std.specs.Prelude.{◌≡◌, Ok, Err, MatchResult, IfOk};
ghost use Rattle.solid_model.specs.Parts.{IsForm};
ghost use Rattle.clause_reader.specs.Forms.{with_arguments, parts_written};
ghost use Rattle.clause_reader.specs.Written.{names_in, parts_in};

use crate::operands::{Operands, operands_of};
use crate::{FormDefect, Tokens};
use fixed_ops::{Fx, Op, arity, raw_range, read_numeral, read_op};

/// An operation, the names of its operands as they stand in a line, and the number of a constant.
#[derive(Clone, Copy, Debug)]
pub(crate) struct WrittenForm<'t> {
    pub op: Op,
    pub operands: Operands<'t>,
    pub value: Fx,
}

/// The form that tokens say.
pub(crate) fn form_of<'t>(mut tokens: Tokens<'t>) -> Result<WrittenForm<'t>, FormDefect>
    ensures form { MatchResult result (λ form. parts_written tokens.entry ≡ Ok (parts_in form))
        (λ defect. parts_written tokens.entry ≡ Err defect) }
    ensures is_form { IfOk result (λ form. IsForm (parts_in form)) }
{
    let Some(word) = tokens.next() else {
        return Err(FormDefect::NoOperation);
    };
    let Some(op) = read_op(word) else {
        return Err(FormDefect::UnknownOperation);
    };
    let Some(arguments) = operands_of(tokens) else {
        return Err(FormDefect::WrongArity);
    };
    with_arguments(op, arguments)
}

// The form of an operation with these arguments.
fn with_arguments(op: Op, arguments: Operands<'_>) -> Result<WrittenForm<'_>, FormDefect>
    ensures is_form { IfOk result (λ form. IsForm (parts_in form)) }
    ensures form { MatchResult result
        (λ form. with_arguments op (names_in arguments.entry) ≡ Ok (parts_in form))
        (λ defect. with_arguments op (names_in arguments.entry) ≡ Err defect) }
{
    if op == Op::Const {
        return constant(arguments);
    }
    if arguments.len() != arity(op) {
        return Err(FormDefect::WrongArity);
    }
    Ok(WrittenForm {
        op,
        operands: arguments,
        value: Fx::from_raw(0),
    })
}

// A constant of the one numeral.
fn constant(arguments: Operands<'_>) -> Result<WrittenForm<'_>, FormDefect>
    ensures is_form { IfOk result (λ form. IsForm (parts_in form)) }
    ensures form { MatchResult result
        (λ form. with_arguments Op.Const (names_in arguments.entry) ≡ Ok (parts_in form))
        (λ defect. with_arguments Op.Const (names_in arguments.entry) ≡ Err defect) }
{
    let Operands::One(token) = arguments else {
        return Err(FormDefect::WrongArity);
    };
    match read_numeral(token) {
        Ok(value) => {
            raw_range(value);
            Ok(WrittenForm {
                op: Op::Const,
                operands: Operands::Zero,
                value,
            })
        }
        Err(_) => Err(FormDefect::BadNumeral),
    }
}
