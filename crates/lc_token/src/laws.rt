//! The laws of tokens and of truncation, each the contract of a function with nothing to do.
ghost use Rattle.std.specs.Prelude.{◌≡◌, ◌<◌, ◌≤◌, ◌+◌, ◌++◌, ℕ, List, length, Some, All, Contains, false, max};
ghost use Rattle.std.specs.Prelude.{slice_set, drop};
ghost use Rattle.lc_record.specs.Newest.{number_or_zero};
ghost use Rattle.lc_record.specs.declared.record.Record.{Record};
ghost use Rattle.lc_record.specs.Transaction.{Transaction};
ghost use Rattle.lc_record.specs.declared.part.Part.{Part};
ghost use Rattle.lc_page.specs.declared.page_entry.PageEntry.{PageEntry};
ghost use Rattle.lc_page.specs.PageVector.{entry_at, settled};
ghost use Rattle.lc_model.specs.History.{History, transactions, reserved};
ghost use Rattle.lc_model.specs.State.{State, Setting, At};
ghost use Rattle.lc_model.specs.Machine.{appended};
ghost use Rattle.lc_model.specs.Sound.{Sound};
ghost use Rattle.lc_model.specs.Merging.{counted_all};
ghost use Rattle.lc_model.specs.Merge.{Page};
ghost use Rattle.lc_model.specs.Stored.{Disks, Fits, Shows, IsOnPages, records_of};
ghost use Rattle.lc_model.specs.Moves.{with_opened, with_settled};
ghost use Rattle.lc_token.specs.Token.{IsReached};
ghost use Rattle.lc_token.specs.declared.token.Token.{Token};
ghost use Rattle.lc_token.specs.Clean.{TokenFits, HasByteOn, all_of, closed_of};
ghost use Rattle.lc_token.specs.KnownClean.{known, KnowsNothing, SeesAll};
ghost use Rattle.lc_token.specs.Reset.{AreKnown, BeginWith};
ghost use Rattle.lc_token.specs.Backlog.{AreDue, Backlog, due_behind, forgetting, fresh, is_known, keeping};
ghost use Rattle.lc_token.specs.Calls.{AreSame, Call, Follows, NumbersName, handed, received};

/// What parts make due has the next numbers, one after another, up to the first number that no part has.
pub fn next_numbers()
    ensures { (applied : ℕ) (parts : List Part) → AreDue applied parts (due_behind applied parts) }
{}

/// Whatever the order and the repeats of what was received, and whenever parts were handed out: those handed out, and
/// then those still due, are what the receipts make due, each once, in the order of their numbers. Of parts with the
/// same number the first counts.
pub fn any_order()
    ensures due { (segment applied : ℕ) (calls : List Call) (new : Backlog) → Follows (fresh segment applied) calls new
        → handed calls ++ new.due ≡ due_behind applied (received calls) }
    ensures applied { (segment applied : ℕ) (calls : List Call) (new : Backlog)
        → Follows (fresh segment applied) calls new
        → new.applied ≡ applied + length (due_behind applied (received calls)) }
{}

/// Two nodes that received the same records, in whatever order and with whatever repeats, have applied the same.
pub fn same_records()
    ensures { (segment applied : ℕ) (calls others : List Call) (new other : Backlog)
        → Follows (fresh segment applied) calls new → Follows (fresh segment applied) others other
        → NumbersName (received calls) → AreSame (received calls) (received others)
        → (handed calls ++ new.due ≡ handed others ++ other.due) × (new.applied ≡ other.applied) }
{}

/// A part that was not known, and is kept and forgotten again, leaves a backlog as it was.
pub fn forgets_what_it_kept()
    ensures { (old : Backlog) (part : Part) → is_known old part.seq ≡ false
        → forgetting (keeping old part) part.seq ≡ old }
{}

/// What a token calls clean is on the pages, so a log whose every record is clean may be reset.
pub fn clean_pages()
    ensures written { (m : Setting) (s : State) (d : Disks) (segment seq clean page reached : ℕ) (text : Page)
        (pages : List PageEntry) → TokenFits m s d segment seq clean pages → page < m.geometry.pages →
        d.opened segment page ≡ Some text → text.sequence ≤ seq →
        IsReached seq (slice_set pages page (settled (entry_at pages page) text.sequence)) reached →
        TokenFits m s (with_settled d segment page text) segment seq (max clean reached)
        (slice_set pages page (settled (entry_at pages page) text.sequence)) }
    ensures reserved { (m : Setting) (s : State) (d : Disks) (segment seq clean : ℕ) (pages : List PageEntry)
        (t : Transaction) → TokenFits m s d segment seq clean pages →
        seq ≤ counted_all d.numbers (transactions s.history) segment → clean ≤ seq →
        TokenFits m (appended s t) d segment seq clean pages }
    ensures closed { (m : Setting) (s : State) (d : Disks) (segment seq clean : ℕ) (pages after : List PageEntry)
        (history : History) → TokenFits m s d segment seq clean pages →
        transactions history ≡ transactions s.history → length after ≡ length pages →
        ((page : ℕ) → ((entry_at after page).stable ≡ (entry_at pages page).stable)
        × ((entry_at pages page).touched ≤ (entry_at after page).touched)) →
        All (λ r. number_or_zero segment r.locks ≡ seq + 1 → (page : ℕ) → page < m.geometry.pages →
        HasByteOn m.geometry segment page r → seq + 1 ≤ (entry_at after page).touched) (all_of m s d) →
        TokenFits m (record s { history = history }) d segment (seq + 1) clean after }
    ensures opened { (m : Setting) (s : State) (d : Disks) (segment seq clean other page : ℕ) (text : Page)
        (pages : List PageEntry) → TokenFits m s d segment seq clean pages →
        (d.page other page).sequence ≤ text.sequence →
        TokenFits m s (with_opened d other page text) segment seq clean pages }
    ensures fewer { (m : Setting) (s : State) (d new : Disks) (segment seq clean : ℕ) (pages : List PageEntry) →
        TokenFits m s d segment seq clean pages → new.numbers ≡ d.numbers →
        ((page : ℕ) (text : Page) → Shows new segment page text → Shows d segment page text) →
        TokenFits m s new segment seq clean pages }
    ensures token_number { (m : Setting) (s : State) (d : Disks) (segment node : ℕ) → Sound m.geometry s →
        s.place segment ≡ At node → s.ack node ≡ reserved node s.history →
        counted_all d.numbers (closed_of s.history) segment
        ≡ counted_all d.numbers (transactions s.history) segment }
    ensures may_reset { (m : Setting) (s : State) (d : Disks) (node : ℕ) (seq clean : ℕ → ℕ)
        (pages : ℕ → List PageEntry) → Fits m s d → node < m.geometry.nodes →
        ((segment : ℕ) → 1 ≤ segment → segment ≤ m.geometry.segments →
        TokenFits m s d segment (seq segment) (clean segment) (pages segment)) →
        All (λ r. (segment : ℕ) → number_or_zero segment r.locks ≤ clean segment)
        (drop (d.dropped node) (records_of m s d node)) →
        All (IsOnPages m.geometry d) (records_of m s d node) }
{}

/// What is known clean is clean, where each token that was seen called no more clean than is.
pub fn known_is_clean()
    ensures { (old new : List ℕ) (tokens : List Token) (clean : ℕ → ℕ) → KnowsNothing old →
        SeesAll old tokens new → All (λ t. t.clean ≤ clean t.segment) tokens →
        (segment : ℕ) → known new segment ≤ clean segment }
{}

/// Where no lock of the records with which words begin is above what is known, no number of any of them is.
pub fn known_numbers()
    ensures { (words : List ℕ) (known_of : ℕ → ℕ) →
        AreKnown words known_of → (rs : List Record) (r : Record) → BeginWith rs words → Contains rs r →
        (segment : ℕ) → number_or_zero segment r.locks ≤ known_of segment }
{}
