//! Laws of what a line asks: each function does nothing, and its contract is the law.

ghost use Rattle.std.specs.Prelude.{◌≡◌, ℕ, List, ◌∷◌, ◌*◌, length, Ok};
ghost use Rattle.request_text.specs.Calls.{calls_said, has_calls, has_objects, objects_said};

/// Of a request that asks for several no word is left out.
pub fn no_word_is_left_out()
    ensures calls { (verb : List ℕ) (words : List (List ℕ)) → has_calls (verb ∷ words) ≡ Ok tt → length words ≡ 2 * length (calls_said words) }
    ensures objects { (verb : List ℕ) (words : List (List ℕ)) → has_objects (verb ∷ words) ≡ Ok tt → length words ≡ length (objects_said words) }
{}
