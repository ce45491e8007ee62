//! Laws of the spelling. Each function does nothing, and its contract is the law.
ghost use Rattle.std.specs.Prelude.{◌≡◌, ◌≢◌, ◌≤◌, ◌∷◌, ◌++◌, false, ℕ, List, Some, Ok, Err, slice_get};
ghost use Rattle.std.specs.List.{AllByRecursion};
ghost use Rattle.history_model.specs.Cluster.{Cluster};
ghost use Rattle.journal_model.specs.declared.lines.Line.{Line};
ghost use Rattle.journal_model.specs.declared.lines.LineFault.TheVariants.{Extra, Word};
ghost use Rattle.journal_model.specs.Fields.{pieces};
ghost use Rattle.journal_model.specs.Journals.{header_of};
ghost use Rattle.journal_model.specs.Lines.{IsPrintable, header_line, spelling};
ghost use Rattle.journal_model.specs.Reading.{is_first_word, read_line};

/// What is read of a line may be printed, and the line is its spelling.
pub fn what_is_read_is_spelled_so()
    ensures { (bytes : List ℕ) (l : Line) → read_line bytes ≡ Ok l → IsPrintable l × (spelling l ≡ bytes) }
{}

/// What may be printed is read from its spelling.
pub fn what_is_spelled_is_read_so()
    ensures { (l : Line) → IsPrintable l → read_line (spelling l) ≡ Ok l }
{}

/// No two lines are spelled alike.
pub fn no_two_lines_are_spelled_alike()
    ensures { (k l : Line) → IsPrintable k → IsPrintable l → spelling k ≡ spelling l → k ≡ l }
{}

/// The fault of a line is that of its word exactly where no form has its first word.
pub fn a_word_is_refused_where_no_form_has_it()
    ensures told { (bytes w : List ℕ) → slice_get (pieces 32 bytes) 0 ≡ Some w → read_line bytes ≡ Err Word → is_first_word w ≡ false }
    ensures only { (bytes w : List ℕ) → slice_get (pieces 32 bytes) 0 ≡ Some w → is_first_word w ≡ false → read_line bytes ≡ Err Word }
{}

/// A line has words too much only where a space and more follow the spelling of a line.
pub fn words_too_much_follow_a_line()
    ensures { (bytes : List ℕ)
        → read_line bytes ≡ Err Extra
        → (l : Line) × (more : List ℕ) × IsPrintable l × (bytes ≡ spelling l ++ 32 ∷ more) }
{}

/// No line that may be printed has a line feed in it, and no header has.
pub fn no_line_has_a_line_feed()
    ensures line { (l : Line) → IsPrintable l → AllByRecursion (λ b. b ≢ 10) (spelling l) }
    ensures header { (cl : Cluster) → cl.nodes ≤ 16 → cl.version ≤ 2 → AllByRecursion (λ b. b ≢ 10) (header_line cl) }
{}

/// A header line is that of one cluster: 1 to 16 nodes, in version 1 or 2.
pub fn a_header_names_one_cluster()
    ensures found { (cl : Cluster) → 1 ≤ cl.nodes → cl.nodes ≤ 16 → 1 ≤ cl.version → cl.version ≤ 2 → header_of (header_line cl) ≡ Some cl }
    ensures only { (line : List ℕ) (cl : Cluster) → header_of line ≡ Some cl
        → (1 ≤ cl.nodes) × (cl.nodes ≤ 16) × (1 ≤ cl.version) × (cl.version ≤ 2) × (header_line cl ≡ line) }
{}
