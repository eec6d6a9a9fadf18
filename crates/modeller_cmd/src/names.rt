// The names of reasons and faults in the lines that a run writes: those of their variants.
ghost use Rattle.std.specs.Prelude.{◌≡◌, ◌≤◌, length};
ghost use Rattle.modeller_cmd.specs.Names.{edit_fault_name, ply_reason_name, script_reason_name, solid_reason_name, text_reason_name, word_reason_name};

use clause_reader::TextReason;
use edit_script::ScriptReason;
use ply_check::PlyReason;
use solid_lang::SolidReason;
use solid_model::EditFault;
use view_settings::WordReason;

// The name of a value among all variants of its type, as the source spells it.
macro_rules! name_among {
    ($value:ident in $kind:ident: $($name:ident $(($field:tt))?),+) => {
        match $value {
            $($kind::$name $(($field))? => stringify!($name).as_bytes(),)+
        }
    };
}

/// The name of a reason why a word is refused.
pub fn word_reason_name(reason: WordReason) -> &'static [u8]
    ensures name { result.now ≡ word_reason_name reason }
    ensures short { length result.now ≤ 16 }
{
    name_among!(reason in WordReason:
        NoVerb, UnknownVerb, NotASetting, UnknownSetting, Twice, BadValue, OutOfRange,
        EmptySpan, CellTooSmall, TooManyCells)
}

/// The name of a reason why a model's text is refused.
pub fn text_reason_name(reason: TextReason) -> &'static [u8]
    ensures name { result.now ≡ text_reason_name reason }
    ensures short { length result.now ≤ 16 }
{
    name_among!(reason in TextReason:
        NoOperation, UnknownOperation, WrongArity, BadNumeral, UnknownName, DoubleName, TooMany,
        Empty, NoMemory)
}

/// The name of a reason why the text of a solid is refused.
pub fn solid_reason_name(reason: SolidReason) -> &'static [u8]
    ensures name { result.now ≡ solid_reason_name reason }
    ensures short { length result.now ≤ 16 }
{
    name_among!(reason in SolidReason:
        UnknownForm, TooDeep, BadNumeral, NotPositive, Unended, Trailing, TooMany, Empty,
        NoMemory)
}

/// The name of a reason why a mesh is refused.
pub fn ply_reason_name(reason: PlyReason) -> &'static [u8]
    ensures name { result.now ≡ ply_reason_name reason }
    ensures short { length result.now ≤ 16 }
{
    name_among!(reason in PlyReason:
        NotPly, BadHeader, BadVertex, BadFace, BadIndex, TooShort, TooLong, NoMemory)
}

/// The name of a reason why a script is refused.
pub fn script_reason_name(reason: ScriptReason) -> &'static [u8]
    ensures name { result.now ≡ script_reason_name reason }
    ensures short { length result.now ≤ 16 }
{
    name_among!(reason in ScriptReason:
        NoMark, UnknownCommand, TooShort, BadName, UnknownOperation, WrongArity, BadNumeral,
        BadSetting, NoMemory)
}

/// The name of a fault for which an edit, or taking one back, is refused.
pub fn edit_fault_name(fault: EditFault) -> &'static [u8]
    ensures name { result.now ≡ edit_fault_name fault }
    ensures short { length result.now ≤ 13 }
{
    name_among!(fault in EditFault:
        UnknownName, DoubleName, NotEarlier, InUse(_), LastClause, Full, NoMemory, NothingToUndo)
}
