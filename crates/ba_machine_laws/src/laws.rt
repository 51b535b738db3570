//! What requests and whole runs tell is what the machine replies, and what runs of equations come
//! to, stated as functions that do nothing.
ghost use Rattle.ba_machine_laws.specs.Agreeing.{AskAgrees, BeginAgrees, EndAgrees, OthersAgree, ReadAgrees};
ghost use Rattle.ba_machine_laws.specs.Ideals.{IdealsAgree, LegalIsIdeal, RunsAgree};
ghost use Rattle.ba_machine_laws.specs.Journals.{AskersAreStanding, RequestsAreARun};
ghost use Rattle.ba_machine_laws.specs.OneWorker.{JournalIsARun};
ghost use Rattle.ba_machine_laws.specs.Shelves.{FoundIsAdmitted};
ghost use Rattle.ba_machine_laws.specs.Whole.{RequestIsARun};

use ba_comply::laws::strong_complies;
use ba_direct::laws::{cover_covers, covered_is_strong};
use ba_kernel::laws::{
    answers_are_records, closed_is_strong, problem_is_question, question_is_problem,
};
use ba_model::laws::answer_is_unique;
use ba_template::laws::matched_is_strong;

// ---- single requests

/// A begun request ([`ba_session::Request::begin`]) is what the machine has after the event that
/// begins it on its version, to which it replies that the request has begun.
///
/// The machine has the policy and, under the version's number, the request's tables. No request of
/// the number is open on it.
pub fn begin_agrees()
    ensures { BeginAgrees }
{}

/// What a request replies to a question ([`ba_session::Request::ask`]) is the machine's reply to
/// the ask with the ground that the reply's evidence is: a cover, a match of a template, a proof, a
/// refusal. The machine then has the request as it stands after the reply. A text that is unread,
/// and want of memory, are no event, and change nothing.
///
/// The machine has the policy, the request's tables under its version's number, and under any
/// number the request as it stands, with its context, version and trace. Each template that the
/// question's look found was admitted to it.
pub fn ask_agrees()
    ensures { AskAgrees }
{
    answer_is_unique();
}

/// What a request replies to a read of a cache key ([`ba_session::Request::read`]) is the machine's
/// reply to the read with the grounds that the reply's evidence is. Of a read that is blocked the
/// machine is told the queries that were judged, the last of which is refused, and behind them
/// whatever queries have grounds that fit. The machine then has the request as before. Want of
/// memory is no event.
///
/// The machine has the policy, the request's tables under its version's number, and under any
/// number the request as it stands. Each template that the queries' looks found was admitted to it.
pub fn read_agrees()
    ensures { ReadAgrees }
{}

/// The end of a request ([`ba_session::Request::end`]) is the machine's step on the event that ends
/// it, and the trace that it gives is what the machine had.
pub fn end_agrees()
    ensures { EndAgrees }
{}

/// Whatever the machine is told of other requests, of tables and of templates, it keeps the
/// request, and each template under its number.
pub fn others_agree()
    ensures { OthersAgree }
{}

/// A machine that was admitted what a shelf's calls added has each template that a look of these
/// calls found, under the number of the shelf's first one plus its id.
///
/// The calls are a legal history of a shelf.
pub fn found_is_admitted()
    ensures { FoundIsAdmitted }
{}

/// From its beginning to its end a request is a run of the machine, with its replies to questions
/// and reads and no others. So each answer is its query's answer in the request's version, and
/// complies with the policy after what the request was told before, and so does each query of a
/// read that is let through. The machine is then as it was, but for these answers at the end of its
/// log.
///
/// The policy and its schema are checked ones. The machine has the policy, the request's tables,
/// and each template that the request's looks found. Each of its templates is sound, and its open
/// requests stand by rising numbers, as their types keep. No request of the number is open on it.
pub fn request_is_a_run()
    ensures { RequestIsARun }
{
    answer_is_unique();
    answers_are_records();
    closed_is_strong();
    cover_covers();
    covered_is_strong();
    matched_is_strong();
    problem_is_question();
    question_is_problem();
    strong_complies();
}

// ---- the entries of a journal

/// A question of a legal journal that is answered or blocked is asked by the request that stands
/// there, and a read that is let through or blocked is made by it, as the laws below say it: with
/// the context of its begin line, the tables of the version that it pinned, and the trace that
/// earlier entries tell.
pub fn askers_stand()
    ensures { AskersAreStanding }
{}

/// Whichever requests of a legal journal are chosen, the events that their entries are, in the
/// order of the script, are a run of the machine, with the replies that the entries tell and no
/// others. So the entries of each single request are a run, and those of all requests together are
/// one. However many workers there were, each answer is what the machine replies to the question
/// with the answer's evidence as ground, and complies with the policy after what its request was
/// told before. Likewise each reply to a read, and each query of one that is let through.
///
/// The machine has the policy of the run's input, the versions of the tables that the run left, the
/// templates that the calls on its eight shelves added, the loaded ones among them, shelf by shelf,
/// and no open request.
pub fn requests_are_a_run()
    ensures { RequestsAreARun }
{
    answers_are_records();
    ask_agrees();
    begin_agrees();
    closed_is_strong();
    cover_covers();
    covered_is_strong();
    end_agrees();
    found_is_admitted();
    matched_is_strong();
    problem_is_question();
    question_is_problem();
    read_agrees();
    strong_complies();
}

/// With one worker the loaded templates that their shelves added, in the order of the input, and
/// then all that became of the lines of a legal journal, in the order of the script, are one run of
/// the machine from its first state on, with the replies that the shelves and the entries tell and
/// no others: the loaded templates are admitted, and then come requests, their questions and reads,
/// and the table sets that are published. Before a line's own event the templates of proofs are
/// admitted that its calls added, also those of a read that then found no memory.
///
/// In its first state the machine has the policy of the run's input and its tables as version 0,
/// and no template and no request.
pub fn journal_is_a_run()
    ensures { JournalIsARun }
{
    answers_are_records();
    ask_agrees();
    begin_agrees();
    closed_is_strong();
    cover_covers();
    covered_is_strong();
    end_agrees();
    found_is_admitted();
    matched_is_strong();
    problem_is_question();
    question_is_problem();
    read_agrees();
    strong_complies();
}

// ---- where equations alone are used

/// A legal journal is ideal where no column may be NULL, each atom of rules, views, questions and
/// reads is an `=`, no line publishes a table set, each line found memory, and none is blocked
/// since the budget is spent: each question is unread with its text's first fault; or answered by
/// its query's answer in the input's tables, where the query is strongly compliant after what its
/// request was answered before; or blocked by a counterexample, where it isn't. Each read is let
/// through where each of its queries is strongly compliant then, and else blocked by a
/// counterexample at the first that isn't.
pub fn legal_journals_are_ideal()
    ensures { LegalIsIdeal }
{}

/// Two ideal journals of inputs with the same policy, tables and script have line by line the same
/// verdict: answered by the same rows, blocked, or unread with the same fault; of a read, let
/// through, or blocked at the same query. So have two runs there, whatever their workers, budgets,
/// orders and loaded templates.
pub fn ideal_journals_agree()
    ensures ideals { IdealsAgree }
    ensures runs { RunsAgree }
{
    answer_is_unique();
}
