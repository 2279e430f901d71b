// The law of fixed words.
ghost use Rattle.pieces.specs.Table.{NoTwoEqual};

// No two words of the table have the same bytes.
pub fn table_stands()
    ensures { NoTwoEqual }
{}
