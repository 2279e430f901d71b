// Rules in words: each on one line.
use rules::book::Book;
use rules::term::{Kind, Term};
use std::io;

// A constant by its name, or by its number where it has none.
pub fn print_constant(rt: &HostRuntime, names: &[&str], c: u32) -> io::Result<()> {
    match names.get(c as usize) {
        Some(name) => print!(rt; " {name}"),
        None => print!(rt; " {c}"),
    }
}

pub fn print_rules<B: Book>(
    rt: &HostRuntime,
    title: &str,
    names: &[&str],
    book: &B,
) -> anyhow::Result<()> {
    for rule in 0..book.count() {
        print!(rt; "   {title}: ")?;
        let told = Told { names, book, rule };
        told.print(rt)?;
    }
    Ok(())
}

// A rule of a book, and what the constants are called.
#[derive(Drop)]
struct Told<'n, 's, 'b, B> {
    names: &'n [&'s str],
    book: &'b B,
    rule: usize,
}

impl<B: Book> Told<'_, '_, '_, B> {
    fn print(&self, rt: &HostRuntime) -> io::Result<()> {
        let kind = self.book.kind(self.rule).unwrap_or(Kind::Equality);
        print!(rt; "{kind} {{")?;
        for row in 0..self.book.rows(self.rule).unwrap_or(0) {
            if row > 0 {
                print!(rt; ",")?;
            }
            self.print_row(rt, row)?;
        }
        print!(rt; " }}")?;
        match kind {
            Kind::Functional => self.print_sides(rt),
            Kind::Equality => self.print_pairs(rt),
        }
    }

    fn print_row(&self, rt: &HostRuntime, row: usize) -> io::Result<()> {
        for term in (0..self.book.width()).filter_map(|column| self
            .book
            .term(self.rule, row, column))
        {
            self.print_term(rt, term)?;
        }
        Ok(())
    }

    // Left variables, an arrow, and right variables.
    fn print_sides(&self, rt: &HostRuntime) -> io::Result<()> {
        if self.book.left(self.rule, 0).is_none() {
            print!(rt; " nothing")?;
        }
        for v in (0..32).filter_map(|k| self.book.left(self.rule, k)) {
            print!(rt; " {}", Term::Variable(v))?;
        }
        print!(rt; " ->")?;
        for (term, _) in (0..32).filter_map(|k| self.book.pair(self.rule, k)) {
            print!(rt; " {term}")?;
        }
        println!(rt; "")
    }

    fn print_pairs(&self, rt: &HostRuntime) -> io::Result<()> {
        for (one, other) in (0..32).filter_map(|k| self.book.pair(self.rule, k)) {
            self.print_term(rt, one)?;
            print!(rt; " =")?;
            self.print_term(rt, other)?;
        }
        println!(rt; "")
    }

    fn print_term(&self, rt: &HostRuntime, term: Term) -> io::Result<()> {
        match term {
            Term::Constant(c) => print_constant(rt, self.names, c),
            Term::Variable(_) => print!(rt; " {term}"),
        }
    }
}
