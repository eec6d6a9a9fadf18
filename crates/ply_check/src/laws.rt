// What always holds of the definitions that the contracts cite.
ghost use Rattle.ply_check.specs.ReadingLaws.{EachFileIsAnswered, FilesAreSmall, NoneIsReadAndRefused, OneReading, OneRefusal, ReadingIsWorkedOut, RefusalIsWorkedOut};
ghost use Rattle.ply_check.specs.ReportLaws.{RefusalsAreReported, VerdictsAreReported};
ghost use Rattle.ply_check.specs.VerdictLaws.{FindingsAreWorkedOut, MeshesAreFoundClosed, OneFindingIsRight, VerdictsAreExact};

/// A file is read as one mesh alone, or else it is refused on one line, for one reason. Both are worked
/// out by its lines.
pub fn ply_reading_is_exact()
    ensures answered { EachFileIsAnswered }
    ensures never_both { NoneIsReadAndRefused }
    ensures one_reading { OneReading }
    ensures one_refusal { OneRefusal }
    ensures reading_worked_out { ReadingIsWorkedOut }
    ensures refusal_worked_out { RefusalIsWorkedOut }
{}

/// A file says fewer than 2^31 faces, whose vertices are all below the count.
pub fn files_are_small()
    ensures { FilesAreSmall }
{}

/// A verdict on faces is Closed exactly where they are closed and a manifold on so many vertices.
/// Two verdicts on the same faces are one, and there always is one: the one that is worked out.
pub fn verdicts_are_exact()
    ensures exact { VerdictsAreExact }
    ensures one { OneFindingIsRight }
    ensures worked_out { FindingsAreWorkedOut }
{}

/// The verdict on the mesh of each grid whose outermost layer is outside is Closed.
pub fn mesh_checks()
    ensures { MeshesAreFoundClosed }
{}

/// The report on a file that says a mesh is the line of the verdict on its faces. That on any other
/// file is the line on which it is refused, and why.
pub fn reports_are_exact()
    ensures verdicts { VerdictsAreReported }
    ensures refusals { RefusalsAreReported }
{}
