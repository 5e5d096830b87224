//! What holds of every picture, as laws of its definitions.

ghost use Rattle.std.specs.Prelude.{◌≡◌, ◌↔◌, ℕ, ◌+◌, ◌<◌, ◌≤◌, ◌++◌, true, Some, List, length, slice_get, take, is_some, not, IsSomeAnd};
ghost use Rattle.std.specs.List.{list_all, list_any};
ghost use Rattle.trace_props.specs.declared.event.Event.{Event};
ghost use Rattle.trace_props.specs.Observed.{member_of};
ghost use Rattle.vsync_text.specs.TraceText.{line_of};
ghost use Rattle.vsync_text.specs.PacketText.{kind_in, packet_line};
ghost use Rattle.trace_drawing.specs.declared.marks.TheConstants.{ROW, COLUMN};
ghost use Rattle.trace_drawing.specs.Layout.{level_of, column_of, origin_of, row_of, rows_of, aside_row, aside_rows};
ghost use Rattle.trace_drawing.specs.declared.row.Row.{Row};
ghost use Rattle.trace_drawing.specs.declared.aside.Aside.{Aside};
ghost use Rattle.trace_drawing.specs.declared.aside.AsideRow.{AsideRow};
ghost use Rattle.trace_drawing.specs.declared.marks.Mark.{Mark};
ghost use Rattle.trace_drawing.specs.declared.marks.Mark.TheVariants.{Way};
ghost use Rattle.trace_drawing.specs.Packets.{is_put_out, arrives, lost_way, way_to};
ghost use Rattle.trace_drawing.specs.Marks.{x_of, y_of, aside_place};
ghost use Rattle.trace_drawing.specs.Labels.{label};
ghost use Rattle.trace_props.specs.declared.verdict.Rule.{Rule};
ghost use Rattle.trace_props.specs.declared.verdict.Verdict.TheVariants.{Breaks};
ghost use Rattle.trace_drawing.specs.declared.broken.TheConstants.{BROKEN_STYLE};
ghost use Rattle.trace_drawing.specs.Broken.{words_of, broken_group, broken_text};
ghost use Rattle.trace_drawing.specs.Promises.{IsReachedFrom, AreInOrder, is_no_bracket, is_plain};

/// The law of rows: there is one for each event, in order, laid out by what stands before it, at its level; later events have greater levels; and
/// a row of a greater level stands lower by a row's height at least.
pub fn rows_in_order()
    ensures count { (level : ℕ → ℕ) (t : List Event) → length (rows_of level t) ≡ length t }
    ensures each { (level : ℕ → ℕ) (t : List Event) (k : ℕ) (e : Event) → slice_get t k ≡ Some e → slice_get (rows_of level t) k ≡ Some (row_of level (take k t) e) }
    ensures level { (level : ℕ → ℕ) (t : List Event) (k : ℕ) (e : Event) → slice_get t k ≡ Some e → (row_of level (take k t) e).level ≡ level k }
    ensures order { (asides : List Aside) (j k : ℕ) → j < k → level_of asides j < level_of asides k }
    ensures apart { (j k : ℕ) → j < k → y_of j + ROW ≤ y_of k }
{}

/// The law of asides that stand in the order of their places: there is a row for each, in order, in the column of the last event of its node before
/// it, at a level of its own; it stands below each event before its place, and above each other.
pub fn asides_between_events()
    ensures count { (rows : List Row) (t : List Event) (asides : List Aside) → length (aside_rows rows t asides) ≡ length asides }
    ensures each { (rows : List Row) (t : List Event) (asides : List Aside) (j : ℕ) (r : Aside) → AreInOrder 0 asides → slice_get asides j ≡ Some r
        → slice_get (aside_rows rows t asides) j ≡ Some (aside_row rows t j r.place r) }
    ensures below { (asides : List Aside) (j k : ℕ) (r : Aside) → slice_get asides j ≡ Some r → k < r.place → level_of asides k < j + r.place }
    ensures above { (asides : List Aside) (j k : ℕ) (r : Aside) → AreInOrder 0 asides → slice_get asides j ≡ Some r → r.place ≤ k → j + r.place < level_of asides k }
{}

/// The law of columns: two events stand in one column exactly if they happen to one member; and a later column stands further right by a column's width at least.
pub fn columns_by_member()
    ensures same { (t : List Event) (j k : ℕ) (e f : Event) → slice_get t j ≡ Some e → slice_get t k ≡ Some f
        → (column_of (member_of e) (take j t) ≡ column_of (member_of f) (take k t)) ↔ (member_of e ≡ member_of f) }
    ensures apart { (b c : ℕ) → b < c → x_of b + COLUMN ≤ x_of c }
{}

/// The law of lines: what reaches an event comes from an earlier one, a delivery from a send of its message, an install from an install of its view.
pub fn lines_between_events()
    ensures { (t : List Event) (k o : ℕ) (e : Event) → slice_get t k ≡ Some e → origin_of (take k t) e ≡ Some o → (o < k) × IsSomeAnd (slice_get t o) (IsReachedFrom e) }
{}

/// The law of texts: no label has a bracket, whatever the payload, and titles, the words of a broken rule and the kind of a packet have no byte
/// that means anything but itself, whatever the packet's bytes.
pub fn texts_add_no_mark()
    ensures label { (payload : List ℕ) → list_all is_no_bracket (label payload) ≡ true }
    ensures title { (e : Event) → list_all is_plain (line_of e) ≡ true }
    ensures packet { (n : ℕ) (bytes : List ℕ) → list_all is_plain (packet_line n bytes) ≡ true }
    ensures kind { (bytes : List ℕ) → list_all is_plain (kind_in bytes) ≡ true }
    ensures words { (rule : Rule) → list_all is_plain (words_of rule) ≡ true }
{}

/// The law of packets: one that is handed over in a row comes from a row in which it is put out, where there is one; and one that is put out
/// ends in the air exactly if no row hands it over.
pub fn ways_of_packets()
    ensures way { (rows : List AsideRow) (r : AsideRow) (n : ℕ) (mark : Mark) → way_to rows r n ≡ Some mark
        → (k : ℕ) × IsSomeAnd (slice_get rows k) (λ from. (is_put_out n from.kind ≡ true) × (mark ≡ Way (aside_place from) (aside_place r))) }
    ensures known { (rows : List AsideRow) (r : AsideRow) (n : ℕ) → list_any (λ from. is_put_out n from.kind) rows ≡ true → is_some (way_to rows r n) ≡ true }
    ensures lost { (rows : List AsideRow) (r : AsideRow) (n : ℕ) → is_some (lost_way rows r n) ≡ not (arrives rows n) }
{}

/// The law of a broken rule: it is marked in the row and the column of the event that breaks it, with its words and that event's line.
pub fn broken_rule_where_it_breaks()
    ensures { (level : ℕ → ℕ) (t : List Event) (rule : Rule) (k : ℕ) (e : Event) → slice_get t k ≡ Some e
        → broken_text (rows_of level t) t (Breaks rule (k + 1)) ≡ BROKEN_STYLE.now ++ broken_group rule (row_of level (take k t) e) e }
{}
