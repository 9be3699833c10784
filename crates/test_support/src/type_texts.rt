//! Type files of the worked examples.

/// The counter of two.
pub const COUNTER: &str = "type counter
states 3
initial 0
op inc:1 ok
op dec:1 ok
step 0 0 1
step 1 0 2
step 1 1 0
step 2 1 1
conflict undo 0 1
conflict undo 1 0
conflict intentions 0 0
conflict intentions 1 1
end
";

/// Two operations that commute at the one state of the set, and not at state 1.
pub const IDLE: &str = "type idle
states 3
initial 0
op p ok
op q ok
step 0 0 0
step 0 1 0
step 1 0 2
step 1 1 1
reach 0
end
";

/// State 3 allows nothing and state 4 allows `r`: one end looks like the other, and not the reverse.
pub const ONE_WAY: &str = "type oneway
states 5
initial 0
op p ok
op q ok
op r ok
step 0 0 2
step 0 1 1
step 1 0 3
step 2 1 4
step 4 2 4
equi 3 4
conflict undo 1 0
conflict undo 2 1
end
";

/// States 3 and 4 are equieffective and not equal.
pub const TWIN: &str = "type twin
states 5
initial 0
op p ok
op q ok
op r ok
step 0 0 1
step 0 1 2
step 1 1 3
step 2 0 4
step 3 2 3
step 4 2 4
equi 3 4
equi 4 3
conflict undo 2 0
conflict undo 2 1
conflict intentions 0 0
conflict intentions 1 1
end
";

/// A semiqueue of two items, each `a` or `b`.
pub const SEMIQUEUE: &str = "type semiqueue
states 6
initial 0
op enq:a ok
op enq:b ok
op deq a
op deq b
step 0 0 3
step 0 1 1
step 1 0 4
step 1 1 2
step 1 3 0
step 2 3 1
step 3 0 5
step 3 1 4
step 3 2 0
step 4 2 1
step 4 3 3
step 5 2 3
conflict undo 0 2
conflict undo 0 3
conflict undo 1 2
conflict undo 1 3
conflict undo 2 0
conflict undo 3 1
conflict intentions 0 0
conflict intentions 0 1
conflict intentions 1 0
conflict intentions 1 1
conflict intentions 2 2
conflict intentions 3 3
end
";

/// The counter of two that begins at 1.
pub const COUNTER_FROM_ONE: &str = "type counter
states 3
initial 1
op inc:1 ok
op dec:1 ok
step 0 0 1
step 1 0 2
step 1 1 0
step 2 1 1
conflict undo 0 1
conflict undo 1 0
conflict intentions 0 0
conflict intentions 1 1
end
";

/// A counter of four that begins at 1.
pub const COUNTER_OF_FOUR: &str = "type counter
states 5
initial 1
op inc:1 ok
op dec:1 ok
step 0 0 1
step 1 0 2
step 1 1 0
step 2 0 3
step 2 1 1
step 3 0 4
step 3 1 2
step 4 1 3
conflict undo 0 1
conflict undo 1 0
conflict intentions 0 0
conflict intentions 1 1
end
";

/// A number from 0 to 5, at 3: one is given or two are taken, and there may not be two.
pub const NUMBER_OF_FIVE: &str = "type five
states 6
initial 3
op give:1 ok
op take:2 ok
op take:2 short
step 0 0 1
step 0 2 0
step 1 0 2
step 1 2 1
step 2 0 3
step 2 1 0
step 3 0 4
step 3 1 1
step 4 0 5
step 4 1 2
step 5 1 3
end
";

/// Credit in cents, with a refund and a question: a number that has no table.
pub const CREDIT: &str = "number credit
max 4294967295
initial 4294967290
take 5
take 4294967295
give 5
atleast 1000000000
end
";

/// A number of any amounts, of which one is listed too, and whose value is read.
pub const PURSE: &str = "number purse
max 100
initial 20
take any
give 7
give any
atleast 5
value
end
";
