//! Worked examples of the families: each function does nothing, and its contract is the example.
#![tactic(auto)]

ghost use Rattle.std.specs.Prelude.{◌≡◌, [], ◌∷◌, Some, None, length, codes};
ghost use Rattle.table_maker.specs.Made.{op_named, table_entries};
ghost use Rattle.number_types.specs.declared.number_call.NumberCall.TheVariants.{Take, Give};
ghost use Rattle.table_families.specs.Account.{account};
ghost use Rattle.table_families.specs.Counter.{counter};
ghost use Rattle.table_families.specs.Counts.{counts_within};
ghost use Rattle.table_families.specs.Number.{amounts_number};
ghost use Rattle.table_families.specs.Queue.{list_at, queue, queue_state};
ghost use Rattle.table_families.specs.Seats.{seats};
ghost use Rattle.table_families.specs.Semiqueue.{semiqueue};
ghost use Rattle.table_families.specs.Set.{set};
ghost use Rattle.table_families.specs.Stock.{stock};

pub fn counter_of_two()
    ensures states { (counter 2 (1 ∷ [])).states ≡ 3 }
    ensures ops { (counter 2 (1 ∷ [])).ops ≡ op_named (codes "inc:1") (codes "ok") ∷ op_named (codes "dec:1") (codes "ok") ∷ [] }
    ensures up { (counter 2 (1 ∷ [])).step 1 0 ≡ Some 2 }
    ensures full { (counter 2 (1 ∷ [])).step 2 0 ≡ None }
    ensures down { (counter 2 (1 ∷ [])).step 1 1 ≡ Some 0 }
    ensures empty { (counter 2 (1 ∷ [])).step 0 1 ≡ None }
{}

pub fn account_of_five()
    ensures ops { length (account 5 (2 ∷ 3 ∷ [])).ops ≡ 14 }
    ensures deposited { (account 5 (2 ∷ 3 ∷ [])).step 2 4 ≡ Some 5 }
    ensures no_room { (account 5 (2 ∷ 3 ∷ [])).step 3 4 ≡ None }
    ensures full { (account 5 (2 ∷ 3 ∷ [])).step 3 5 ≡ Some 3 }
    ensures withdrawn { (account 5 (2 ∷ 3 ∷ [])).step 3 6 ≡ Some 0 }
    ensures too_little { (account 5 (2 ∷ 3 ∷ [])).step 2 6 ≡ None }
    ensures short { (account 5 (2 ∷ 3 ∷ [])).step 2 7 ≡ Some 2 }
    ensures here { (account 5 (2 ∷ 3 ∷ [])).step 4 12 ≡ Some 4 }
    ensures elsewhere { (account 5 (2 ∷ 3 ∷ [])).step 4 13 ≡ None }
{}

pub fn set_of_two()
    ensures states { (set (codes "a" ∷ codes "b" ∷ [])).states ≡ 4 }
    ensures put_in { (set (codes "a" ∷ codes "b" ∷ [])).step 1 4 ≡ Some 3 }
    ensures inside_already { (set (codes "a" ∷ codes "b" ∷ [])).step 2 4 ≡ Some 2 }
    ensures taken_out { (set (codes "a" ∷ codes "b" ∷ [])).step 3 5 ≡ Some 1 }
    ensures member { (set (codes "a" ∷ codes "b" ∷ [])).step 2 6 ≡ Some 2 }
    ensures no_member { (set (codes "a" ∷ codes "b" ∷ [])).step 2 2 ≡ None }
    ensures outside { (set (codes "a" ∷ codes "b" ∷ [])).step 2 3 ≡ Some 2 }
{}

pub fn two_counts_within_two()
    ensures { counts_within 2 2 ≡ (0 ∷ 0 ∷ []) ∷ (0 ∷ 1 ∷ []) ∷ (0 ∷ 2 ∷ []) ∷ (1 ∷ 0 ∷ []) ∷ (1 ∷ 1 ∷ []) ∷ (2 ∷ 0 ∷ []) ∷ [] }
{}

pub fn two_elements_and_two_items()
    ensures states { (semiqueue (codes "a" ∷ codes "b" ∷ []) 2).states ≡ 6 }
    ensures operations { (semiqueue (codes "a" ∷ codes "b" ∷ []) 2).ops
        ≡ op_named (codes "enq:a") (codes "ok") ∷ op_named (codes "enq:b") (codes "ok") ∷ op_named (codes "deq") (codes "a") ∷ op_named (codes "deq") (codes "b") ∷ [] }
    ensures steps { table_entries (semiqueue (codes "a" ∷ codes "b" ∷ []) 2) 24
        ≡ Some 3 ∷ Some 1 ∷ None ∷ None
        ∷ Some 4 ∷ Some 2 ∷ None ∷ Some 0
        ∷ None ∷ None ∷ None ∷ Some 1
        ∷ Some 5 ∷ Some 4 ∷ Some 0 ∷ None
        ∷ None ∷ None ∷ Some 1 ∷ Some 3
        ∷ None ∷ None ∷ Some 3 ∷ None ∷ [] }
{}

pub fn stock_of_five()
    ensures ops { length (stock 5 (2 ∷ 3 ∷ [])).ops ≡ 8 }
    ensures given { (stock 5 (2 ∷ 3 ∷ [])).step 2 4 ≡ Some 5 }
    ensures no_room { (stock 5 (2 ∷ 3 ∷ [])).step 3 4 ≡ None }
    ensures full { (stock 5 (2 ∷ 3 ∷ [])).step 3 5 ≡ Some 3 }
    ensures taken { (stock 5 (2 ∷ 3 ∷ [])).step 3 6 ≡ Some 0 }
    ensures short { (stock 5 (2 ∷ 3 ∷ [])).step 2 7 ≡ Some 2 }
{}

pub fn queue_of_two_elements_and_two_items()
    ensures states { (queue (codes "a" ∷ codes "b" ∷ []) 2).states ≡ 7 }
    ensures operations { (queue (codes "a" ∷ codes "b" ∷ []) 2).ops
        ≡ op_named (codes "enq:a") (codes "ok") ∷ op_named (codes "enq:b") (codes "ok") ∷ op_named (codes "deq") (codes "a") ∷ op_named (codes "deq") (codes "b") ∷ [] }
    ensures head_a { list_at 2 2 4 ≡ 0 ∷ 1 ∷ [] }
    ensures head_b { queue_state 2 (1 ∷ 0 ∷ []) ≡ 5 }
    ensures steps { table_entries (queue (codes "a" ∷ codes "b" ∷ []) 2) 28
        ≡ Some 1 ∷ Some 2 ∷ None ∷ None
        ∷ Some 3 ∷ Some 4 ∷ Some 0 ∷ None
        ∷ Some 5 ∷ Some 6 ∷ None ∷ Some 0
        ∷ None ∷ None ∷ Some 1 ∷ None
        ∷ None ∷ None ∷ Some 2 ∷ None
        ∷ None ∷ None ∷ None ∷ Some 1
        ∷ None ∷ None ∷ None ∷ Some 2 ∷ [] }
{}

pub fn two_seats()
    ensures states { (seats 2).states ≡ 9 }
    ensures ops { length (seats 2).ops ≡ 13 }
    ensures held { (seats 2).step 0 5 ≡ Some 3 }
    ensures taken { (seats 2).step 3 6 ≡ Some 3 }
    ensures released { (seats 2).step 4 7 ≡ Some 1 }
    ensures booked { (seats 2).step 4 8 ≡ Some 7 }
    ensures cancelled { (seats 2).step 7 9 ≡ Some 1 }
    ensures not_held { (seats 2).step 7 7 ≡ None }
    ensures one_free { (seats 2).step 6 11 ≡ Some 6 }
    ensures not_two_free { (seats 2).step 6 12 ≡ None }
{}

pub fn number_of_a_million()
    ensures parts { amounts_number 1000000 (1 ∷ 5 ∷ [])
        ≡ record { name = codes "number"; max = 1000000; initial = 0; calls = Take 1 ∷ Take 5 ∷ Give 1 ∷ Give 5 ∷ [] } }
{}
