ghost use Rattle.std.specs.Prelude.{◌≡◌, length};
ghost use Rattle.rules.specs.Rules.{OfWidth};
ghost use Rattle.search.specs.Relations.{RelationMeaning, entry_at};

// A relation, by what it means: a width, and rows of that width. Rows and columns count from 0. A question past an end
// answers none, and no other question does.
pub trait Relation {
    ghost meaning: { Self → RelationMeaning };

    // Each implementation shows that its rows have its width.
    ghost even: { (s : Self) → OfWidth (meaning s).width (meaning s).rows };

    fn width(&self) -> usize
        ensures { result ≡ (meaning self.now).width };

    fn rows(&self) -> usize
        ensures { result ≡ length (meaning self.now).rows };

    fn entry(&self, row: usize, column: usize) -> Option<u32>
        ensures { result ≡ entry_at (meaning self.now).rows row column };
}
