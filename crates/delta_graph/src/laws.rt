//! The laws of entries: when their counts fit, and whom they name. Each function does nothing, and its contract is the law.
ghost use Rattle.std.specs.Prelude.{◌≡◌, ◌<◌, ◌^◌, List, length};
ghost use Rattle.std.specs.List.{AllByRecursion};
ghost use Rattle.history_model.specs.declared.records.Entry.{Entry};
ghost use Rattle.history_model.specs.Facts.{Fact};
ghost use Rattle.history_model.specs.Graph.{rising_actors};
ghost use Rattle.history_model.specs.Ledgers.{CountFromOne, Ledger, entries_ledger, entry_ledger};
ghost use Rattle.history_model.specs.Tells.{TellEntries, fact_names};
ghost use Rattle.delta_graph.specs.Sums.{CountsFit, count_sum, named_count};

/// Counts fit where all of them together do, and where the facts that they count are few enough.
pub fn counts_fit()
    ensures together { (l : Ledger) → count_sum l < 2 ^ 32 → CountsFit l }
    ensures facts { (entries : List Entry) (facts : List Fact) → TellEntries entries facts → length facts < 2 ^ 32
        → CountsFit (entries_ledger entries) }
{}

/// Entries of which none counts 0 name as many different actors as the facts that they tell.
pub fn entries_name_whom_their_facts_name()
    ensures { (entries : List Entry) (facts : List Fact) → AllByRecursion (λ e. CountFromOne (entry_ledger e)) entries
        → TellEntries entries facts → named_count entries ≡ length (rising_actors (fact_names facts)) }
{}
