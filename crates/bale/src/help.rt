// What the program does, in a screen.

const HELP: &str = "bale: which targets follow from a season's book of rules?

  bale               reports on the text on standard input
  bale FILE          reports on the text in FILE
  bale check         says what the text on standard input is read as
  bale check FILE    says what the text in FILE is read as
  bale help          prints this

A file called help or check is given as ./help or ./check.

The text is a width, the book's rules and the targets (docs/FORMAT.md).
For each target the report says 'target i follows': no records keep the book and
break the target; or 'target i fails' and rows that do. In the rows a word is
a constant of the text, and $n stands for any value of its own.
The check prints the width, how many rules, targets and constants there are, the
constants by number, and the line on which each rule and each target begins.
A text that cannot be read gives 'refused', a number, a layer and a place
(docs/REFUSALS.md); the check also quotes the line at that place.
";

pub fn print_help(rt: &HostRuntime) -> anyhow::Result<()> {
    print!(rt; "{HELP}")?;
    Ok(())
}
