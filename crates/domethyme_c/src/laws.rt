ghost use Rattle.domethyme_c.specs.Answers.{OpenedFilesAnswerExactly};

use hierfile::hierarchies_have_one_spelling;

/// Opened files answer exactly: a handle that was opened from the file of a hierarchy that is right for a graph gives the
/// least lengths of that graph, shortest paths of it, in version 2 with the fewest arcs, and the nodes within a limit. It
/// says that there is no path exactly where there is none, and no route is too long. What `prepare` writes for the graph of
/// a text is such a file. It does nothing when it runs.
pub fn opened_files_answer_exactly()
    ensures { OpenedFilesAnswerExactly }
{
    hierarchies_have_one_spelling();
}
