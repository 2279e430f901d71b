// The books and targets of the cases, as sheets and key lists: each sheet is that of the case's book, or of a book with
// its target alone. The words A, B and C are the variables 0, 1 and 2.
#![tactic(auto, unfolding(sheets::specs::Layout::layout, sheets::specs::Layout::layout_rule, sheets::specs::Layout::layout_lists))]

ghost use Rattle.std.specs.Prelude.{◌≡◌, [], ◌∷◌};
ghost use Rattle.sheets.specs.Layout.{layout};
ghost use Rattle.keys.specs.Keys.{keys_meaning};
ghost use Rattle.worked.specs.Cases.{agreeing_book, agreement_gives_no_key, book, chained_keys, dock_weight_open, one_loop, one_press_weight, press_book, two_constants_for_one, two_cycle, weights_that_agree};

use rules::term::BASE;

const A: u32 = BASE;

const B: u32 = BASE + 1;

const C: u32 = BASE + 2;

// {$0 press $1} $0 -> $1: the book of cases 1 and 2, and the target of case 4.
pub fn press_key() -> [u32; 11]
    ensures book { result ≡ layout press_book }
    ensures target { result ≡ layout (book 3 (agreement_gives_no_key.target ∷ [])) }
{
    [3, 1, 1, 1, A, 0, B, 1, A, 1, B]
}

// {$0 press $1, $0 dock $2} $1 = $2: the book of cases 3 and 4.
pub fn weights_agree() -> [u32; 14]
    ensures { result ≡ layout agreeing_book }
{
    [3, 1, 2, 2, A, 0, B, A, 1, C, 0, 1, B, C]
}

// {$0 press $1, $0 dock $2} $0 -> $1: the target of case 1.
pub fn press_to_press() -> [u32; 14]
    ensures { result ≡ layout (book 3 (one_press_weight.target ∷ [])) }
{
    [3, 1, 1, 2, A, 0, B, A, 1, C, 1, A, 1, B]
}

// {$0 press $1, $0 dock $2} $0 -> $2: the target of cases 2 and 3.
pub fn press_to_dock() -> [u32; 14]
    ensures apart { result ≡ layout (book 3 (dock_weight_open.target ∷ [])) }
    ensures agreed { result ≡ layout (book 3 (weights_that_agree.target ∷ [])) }
{
    [3, 1, 1, 2, A, 0, B, A, 1, C, 1, A, 1, C]
}

// {$0 $1} $0 -> $1: the book of case 5.
pub fn one_key() -> [u32; 10]
    ensures { result ≡ layout two_constants_for_one.book }
{
    [2, 1, 1, 1, A, B, 1, A, 1, B]
}

// {$0 1, $0 2} nothing -> $0: the target of case 5.
pub fn two_constants() -> [u32; 11]
    ensures { result ≡ layout (book 2 (two_constants_for_one.target ∷ [])) }
{
    [2, 1, 1, 2, A, 1, A, 2, 0, 1, A]
}

// {$0 $1, $1 $0} $0 -> $1: the book of case 6, and the target of case 7.
pub fn there_and_back() -> [u32; 12]
    ensures book { result ≡ layout two_cycle.book }
    ensures target { result ≡ layout (book 2 (one_loop.target ∷ [])) }
{
    [2, 1, 1, 2, A, B, B, A, 1, A, 1, B]
}

// {$0 $0, $0 $1, $1 $0} $0 = $1: the target of case 6.
pub fn cycle_with_loop() -> [u32; 14]
    ensures { result ≡ layout (book 2 (two_cycle.target ∷ [])) }
{
    [2, 1, 2, 3, A, A, A, B, B, A, 0, 1, A, B]
}

// {$0 $0} nothing -> $0: the book of case 7.
pub fn one_loop() -> [u32; 9]
    ensures { result ≡ layout one_loop.book }
{
    [2, 1, 1, 1, A, A, 0, 1, A]
}

// Width 3, 0 -> 1 and 1 -> 2: the book of case 8.
pub fn chained_keys() -> [u8; 4]
    ensures { keys_meaning 3 result ≡ chained_keys.book }
{
    [1, 2, 2, 4]
}

// Width 3, 0 -> 2: the target of case 8.
pub fn first_to_last() -> [u8; 2]
    ensures { keys_meaning 3 result ≡ book 3 (chained_keys.target ∷ []) }
{
    [1, 4]
}
