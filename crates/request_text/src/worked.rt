//! Worked examples of the definitions: each function does nothing, and its contract is the example.

ghost use Rattle.std.specs.Prelude.{◌≡◌, ◌∷◌, [], codes, Some, None, Ok, Err};
ghost use Rattle.request_text.specs.Numbers.{request_number, transaction_of};
ghost use Rattle.request_text.specs.Requests.{asked_by, calls_asked, objects_asked, file_words, untagged, words_between};
ghost use Rattle.request_text.specs.declared.fault.RequestFault.TheVariants.{NotAscii, BadTag, UnknownVerb, BadWords, BadNumber};
ghost use Rattle.request_text.specs.declared.request.Decision.TheVariants as decision;
ghost use Rattle.request_text.specs.declared.request.Request.TheVariants.{Begin, Call, Commit, CommitUnder, Kept, Peek, Committed, Do, DoUnder, Outcome, Prepare, Decide, Prepared, Find, Extend};
ghost use Rattle.request_text.specs.declared.request.ObjectWord.TheVariants.{Number, Name};

pub fn numbers_are_read()
    ensures zero { request_number (codes "0") ≡ Some 0 }
    ensures most { request_number (codes "4294967295") ≡ Some 4294967295 }
    ensures too_large { request_number (codes "4294967296") ≡ None }
    ensures leading_zero { request_number (codes "01") ≡ None }
    ensures none { request_number (codes "") ≡ None }
{}

pub fn transactions_are_read()
    ensures with_a_point { transaction_of (codes "3.17") ≡ Some (record { life = 3; number = 17 }) }
    ensures without { transaction_of (codes "317") ≡ None }
    ensures two_points { transaction_of (codes "3.1.7") ≡ None }
{}

pub fn lines_are_cut_at_each_space()
    ensures words { words_between (codes "a1 kept 0") ≡ codes "a1" ∷ codes "kept" ∷ codes "0" ∷ [] }
    ensures two_spaces { words_between (codes "a1  end") ≡ codes "a1" ∷ [] ∷ codes "end" ∷ [] }
    ensures no_byte { words_between [] ≡ [] ∷ [] }
{}

pub fn words_behind_the_verb()
    ensures files { file_words (codes "a1 extend more.history ctr2.type") ≡ codes "more.history" ∷ codes "ctr2.type" ∷ [] }
    ensures none { file_words (codes "a1 end") ≡ [] }
    ensures no_verb { file_words (codes "a1") ≡ [] }
{}

pub fn lines_that_ask_for_more_objects()
    ensures extend { asked_by (codes "e1 extend more.history ctr2.type") ≡ record { tag = Some (codes "e1"); request = Ok Extend } }
    ensures no_type { asked_by (codes "e1 extend more.history") ≡ record { tag = Some (codes "e1"); request = Err BadWords } }
{}

/// `peek`, `do` and `committed` ask for several at once.
pub fn lines_that_ask_for_several()
    ensures peek { asked_by (codes "7 peek 0 get @A12 size") ≡ record { tag = Some (codes "7"); request = Ok Peek } }
    ensures whole { asked_by (codes "7 do 0 inc:1") ≡ record { tag = Some (codes "7"); request = Ok Do } }
    ensures committed { asked_by (codes "7 committed 1 @A12 1") ≡ record { tag = Some (codes "7"); request = Ok Committed } }
    ensures nothing { asked_by (codes "7 peek") ≡ record { tag = Some (codes "7"); request = Err BadWords } }
    ensures no_object { asked_by (codes "7 committed") ≡ record { tag = Some (codes "7"); request = Err BadWords } }
    ensures half_a_call { asked_by (codes "7 do 0 get 1") ≡ record { tag = Some (codes "7"); request = Err BadWords } }
    ensures names_before_numbers { asked_by (codes "7 do x get 1 GET") ≡ record { tag = Some (codes "7"); request = Err BadWords } }
    ensures bad_number { asked_by (codes "7 do 0 get x get") ≡ record { tag = Some (codes "7"); request = Err BadNumber } }
    ensures bad_object { asked_by (codes "7 committed 0 @") ≡ record { tag = Some (codes "7"); request = Err BadNumber } }
{}

/// What they ask for, in its order.
pub fn several_are_read()
    ensures calls { calls_asked (codes "7 do 0 inc:1 @A12 size") ≡ record { x = Number 0; call = codes "inc:1" } ∷ record { x = Name (codes "A12"); call = codes "size" } ∷ [] }
    ensures objects { objects_asked (codes "7 committed 1 @A12 1") ≡ Number 1 ∷ Name (codes "A12") ∷ Number 1 ∷ [] }
{}

/// A commit and a whole transaction may have a key.
pub fn lines_that_have_keys()
    ensures plain { asked_by (codes "7 commit 3.17") ≡ record { tag = Some (codes "7"); request = Ok (Commit (record { life = 3; number = 17 })) } }
    ensures commit { asked_by (codes "7 commit 3.17 order:4711") ≡ record { tag = Some (codes "7"); request = Ok (CommitUnder (record { life = 3; number = 17 }) (codes "order:4711")) } }
    ensures no_key { asked_by (codes "7 commit 3.17 a/b") ≡ record { tag = Some (codes "7"); request = Err BadWords } }
    ensures key_before_number { asked_by (codes "7 commit 317 a/b") ≡ record { tag = Some (codes "7"); request = Err BadWords } }
    ensures bad_number { asked_by (codes "7 commit 317 order:4711") ≡ record { tag = Some (codes "7"); request = Err BadNumber } }
    ensures whole { asked_by (codes "7 do =order:4711 0 inc:1") ≡ record { tag = Some (codes "7"); request = Ok (DoUnder (codes "order:4711")) } }
    ensures nothing { asked_by (codes "7 do =order:4711") ≡ record { tag = Some (codes "7"); request = Err BadWords } }
    ensures empty_key { asked_by (codes "7 do = 0 inc:1") ≡ record { tag = Some (codes "7"); request = Err BadWords } }
    ensures outcome { asked_by (codes "7 outcome order:4711") ≡ record { tag = Some (codes "7"); request = Ok (Outcome (codes "order:4711")) } }
    ensures calls { calls_asked (codes "7 do =order:4711 0 inc:1") ≡ record { x = Number 0; call = codes "inc:1" } ∷ [] }
{}

/// A transaction is prepared under a key.
pub fn lines_that_prepare()
    ensures prepare { asked_by (codes "7 prepare 3.17 order:4711 1796000000") ≡ record { tag = Some (codes "7"); request = Ok (Prepare (record { life = 3; number = 17 }) (codes "order:4711") 1796000000) } }
    ensures latest { asked_by (codes "7 prepare 3.17 order:4711 4294967295") ≡ record { tag = Some (codes "7"); request = Ok (Prepare (record { life = 3; number = 17 }) (codes "order:4711") 4294967295) } }
    ensures too_late { asked_by (codes "7 prepare 3.17 order:4711 4294967296") ≡ record { tag = Some (codes "7"); request = Err BadNumber } }
    ensures no_end { asked_by (codes "7 prepare 3.17 order:4711") ≡ record { tag = Some (codes "7"); request = Err BadWords } }
    ensures key_before_numbers { asked_by (codes "7 prepare 317 a/b soon") ≡ record { tag = Some (codes "7"); request = Err BadWords } }
    ensures bad_number { asked_by (codes "7 prepare 317 order:4711 0") ≡ record { tag = Some (codes "7"); request = Err BadNumber } }
{}

/// It is decided by its key.
pub fn lines_that_decide()
    ensures commit { asked_by (codes "7 decide order:4711 commit") ≡ record { tag = Some (codes "7"); request = Ok (Decide (codes "order:4711") decision.Commit) } }
    ensures abort { asked_by (codes "7 decide order:4711 abort") ≡ record { tag = Some (codes "7"); request = Ok (Decide (codes "order:4711") decision.Abort) } }
    ensures neither { asked_by (codes "7 decide order:4711 committed") ≡ record { tag = Some (codes "7"); request = Err BadWords } }
    ensures nothing { asked_by (codes "7 decide order:4711") ≡ record { tag = Some (codes "7"); request = Err BadWords } }
    ensures no_key { asked_by (codes "7 decide a/b abort") ≡ record { tag = Some (codes "7"); request = Err BadWords } }
    ensures prepared { asked_by (codes "7 prepared") ≡ record { tag = Some (codes "7"); request = Ok Prepared } }
    ensures under_a_key { asked_by (codes "7 prepared order:4711") ≡ record { tag = Some (codes "7"); request = Err BadWords } }
{}

/// An object is said by its number, or by `@` and its name.
pub fn lines_say_objects_by_names()
    ensures call { asked_by (codes "7 call 3.17 @LH-455.A12 hold") ≡ record { tag = Some (codes "7"); request = Ok (Call (record { life = 3; number = 17 }) (Name (codes "LH-455.A12")) (codes "hold")) } }
    ensures kept { asked_by (codes "7 kept @7") ≡ record { tag = Some (codes "7"); request = Ok (Kept (Name (codes "7"))) } }
    ensures find { asked_by (codes "7 find A12") ≡ record { tag = Some (codes "7"); request = Ok (Find (codes "A12")) } }
    ensures no_name { asked_by (codes "7 kept @") ≡ record { tag = Some (codes "7"); request = Err BadNumber } }
    ensures comma { asked_by (codes "7 kept @A,12") ≡ record { tag = Some (codes "7"); request = Err BadNumber } }
    ensures without_the_sign { asked_by (codes "7 kept A12") ≡ record { tag = Some (codes "7"); request = Err BadNumber } }
    ensures with_the_sign { asked_by (codes "7 find @A12") ≡ record { tag = Some (codes "7"); request = Err BadWords } }
{}

pub fn lines_without_a_tag()
    ensures empty { asked_by [] ≡ untagged BadTag }
    ensures upper_case { asked_by (codes "A1 begin") ≡ untagged BadTag }
    ensures tab { asked_by (9 ∷ []) ≡ untagged NotAscii }
{}

pub fn lines_say_their_requests()
    ensures begin { asked_by (codes "a1 begin") ≡ record { tag = Some (codes "a1"); request = Ok Begin } }
    ensures call { asked_by (codes "7 call 3.17 0 hold:2") ≡ record { tag = Some (codes "7"); request = Ok (Call (record { life = 3; number = 17 }) (Number 0) (codes "hold:2")) } }
    ensures unknown_verb { asked_by (codes "a1 open") ≡ record { tag = Some (codes "a1"); request = Err UnknownVerb } }
    ensures space_behind { asked_by (codes "a1 begin ") ≡ record { tag = Some (codes "a1"); request = Err BadWords } }
    ensures words_before_numbers { asked_by (codes "a1 call x 0 HOLD") ≡ record { tag = Some (codes "a1"); request = Err BadWords } }
    ensures bad_number { asked_by (codes "a1 commit 17") ≡ record { tag = Some (codes "a1"); request = Err BadNumber } }
{}
