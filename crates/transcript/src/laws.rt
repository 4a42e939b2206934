// Laws of what is printed of a text, and of the sizes of sheets: each is proved where the library is built.
ghost use Rattle.transcript.specs.Existence.{EveryScriptRuns, ExactlyOneTranscript};
ghost use Rattle.transcript.specs.Sizes.{ScriptsFit, SheetsFit};
ghost use Rattle.transcript.specs.Transcripts.{OneTranscript};

/// Whatever is printed of a text by the rules is the same: the text settles the run and its rendering.
pub fn one_transcript()
    ensures { OneTranscript }
{}

/// Something is printed of every text by the rules, and only one thing: its fault, or the rendering of a run of its sheet.
pub fn exactly_one_transcript()
    ensures { ExactlyOneTranscript }
{}

/// Every script, whichever of its calls are refused, has a run over every table, from an empty queue of either name and of any
/// capacity.
pub fn every_script_runs()
    ensures { EveryScriptRuns }
{}

/// The script of every sheet that is read has at most 42,768 calls, its ticks included.
pub fn scripts_fit()
    ensures { ScriptsFit }
{}

/// Every sheet that is read has at most 256 at-lines, 10,000 ticks and 16 rows.
pub fn sheets_fit()
    ensures { SheetsFit }
{}
