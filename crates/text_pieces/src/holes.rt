//! What template languages put values in.
ghost use Rattle.std.specs.Prelude.{◌≡◌, ◌≤◌, length, drop, None, false, true};
ghost use Rattle.std.specs.Char.{is_ascii_digit};
ghost use Rattle.std.specs.List.{prefix_len};
ghost use Rattle.std.specs.Option.{option_map};
ghost use Rattle.text_pieces.specs.Closers.{AreLeft};
ghost use Rattle.text_pieces.specs.Holes as spec;

/// For each mark that ends a hole, whether it may still come. So a text is looked through once for a mark that doesn't.
#[derive(Clone, Copy, Debug, PartialEq, Eq)]
pub(crate) struct Closers {
    pub percent: bool,
    pub square: bool,
    pub brace: bool,
}

fn starts(text: &[u8], mark: &[u8]) -> bool
    ensures { result ≡ spec.starts text.now mark.now }
{
    text.starts_with(mark)
}

#[tactic(auto, unfolding(crate::specs::Holes::behind_first))]
fn behind_first<'t>(mark: &[u8], text: &'t [u8]) -> Option<&'t [u8]>
    ensures { spec.behind_first mark.now text.now ≡ option_map (λ rest. rest.now) result }
{
    let mut rest = text;
    'bytes: while let Some((_, behind)) = rest.split_first() {
        if starts(rest, mark) {
            return Some(rest.split_at(mark.len()).1);
        }
        rest = behind;
    }
    None
}

// Where the mark is known not to come, nothing is looked through.
fn behind_left<'t>(is_left: bool, mark: &[u8], text: &'t [u8]) -> Option<&'t [u8]>
    requires { is_left ≡ false → spec.behind_first mark.now text.now ≡ None }
    ensures { spec.behind_first mark.now text.now ≡ option_map (λ rest. rest.now) result }
{
    if is_left {
        behind_first(mark, text)
    } else {
        None
    }
}

// ---- braces

fn is_closing_brace(b: u8) -> bool
    ensures { result ≡ spec.is_closing_brace b }
{
    b == b'}'
}

fn brace_len(text: &[u8]) -> usize
    ensures gives { result ≡ prefix_len spec.is_closing_brace text.now }
    ensures within { result ≤ length text.now }
{
    text.iter().take_while(|b| is_closing_brace(**b)).count()
}

fn behind_braces(text: &[u8]) -> &[u8]
    ensures { result.now ≡ spec.behind_braces text.now }
{
    text.split_at(brace_len(text)).1
}

fn past_braces(found: Option<&[u8]>) -> Option<&[u8]>
    ensures { spec.past_braces (option_map (λ rest. rest.now) found.entry) ≡ option_map (λ rest. rest.now) result }
{
    match found {
        None => None,
        Some(rest) => Some(behind_braces(rest)),
    }
}

fn begins_brace(text: &[u8]) -> bool
    ensures { result ≡ spec.begins_brace text.now }
{
    starts(text, b"{") || starts(text, b"${") || starts(text, b"#{")
}

// ---- a percent sign with a letter

fn in_round(b: u8) -> bool
    ensures { result ≡ spec.in_round b }
{
    !(b == b'(' || b == b')' || b == b'%')
}

fn name_len(text: &[u8]) -> usize
    ensures gives { result ≡ prefix_len spec.in_round text.now }
    ensures within { result ≤ length text.now }
{
    text.iter().take_while(|b| in_round(**b)).count()
}

// Behind a `)`, where one is at the front.
#[tactic(auto, unfolding(crate::specs::Holes::behind_closing))]
fn behind_closing<'t>(text: &'t [u8], all: &'t [u8]) -> &'t [u8]
    ensures { spec.behind_closing text.now all.now ≡ result.now }
{
    match text.split_first() {
        None => all,
        Some((first, behind)) => { if *first == b')' { behind } else { all } }
    }
}

#[tactic(auto, unfolding(crate::specs::Holes::behind_round))]
fn behind_round(text: &[u8]) -> &[u8]
    ensures { spec.behind_round text.now ≡ result.now }
{
    match text.split_first() {
        None => text,
        Some((first, behind)) => {
            if *first == b'(' {
                behind_closing(behind.split_at(name_len(behind)).1, text)
            } else {
                text
            }
        }
    }
}

fn is_digit(b: u8) -> bool
    ensures { result ≡ is_ascii_digit b }
{
    b.is_ascii_digit()
}

fn digit_len(text: &[u8]) -> usize
    ensures gives { result ≡ prefix_len is_ascii_digit text.now }
    ensures within { result ≤ length text.now }
{
    text.iter().take_while(|b| is_digit(**b)).count()
}

fn behind_digits(text: &[u8]) -> &[u8]
    ensures { result.now ≡ spec.behind_digits text.now }
{
    text.split_at(digit_len(text)).1
}

#[tactic(auto, unfolding(crate::specs::Holes::behind_dollar))]
fn behind_dollar(text: &[u8]) -> &[u8]
    ensures { spec.behind_dollar text.now ≡ result.now }
{
    match text.split_first() {
        None => text,
        Some((first, behind)) => { if *first == b'$' { behind } else { text } }
    }
}

#[tactic(auto, unfolding(crate::specs::Holes::behind_letter))]
fn behind_letter(text: &[u8]) -> Option<&[u8]>
    ensures { spec.behind_letter text.now ≡ option_map (λ rest. rest.now) result }
{
    match text.split_first() {
        None => None,
        Some((first, behind)) => {
            if first.is_ascii_alphabetic() {
                Some(behind)
            } else {
                None
            }
        }
    }
}

fn behind_format(text: &[u8]) -> Option<&[u8]>
    ensures { spec.behind_format text.now ≡ option_map (λ rest. rest.now) result }
{
    behind_letter(behind_dollar(behind_digits(behind_round(text))))
}

// ---- a hole

fn behind_byte(text: &[u8]) -> &[u8]
    ensures { result.now ≡ drop 1 text.now }
{
    match text.split_first() {
        None => text,
        Some((_, behind)) => behind,
    }
}

fn len_before(text: &[u8], rest: Option<&[u8]>) -> usize
    ensures gives { result ≡ spec.len_before text.now (option_map (λ rest. rest.now) rest.entry) }
    ensures within { result ≤ length text.now }
{
    match rest {
        None => 0,
        Some(rest) => text.len().saturating_sub(rest.len()),
    }
}

impl Closers {
    /// Each may come.
    pub(crate) fn all() -> Self
        ensures percent { result.percent ≡ true }
        ensures square { result.square ≡ true }
        ensures brace { result.brace ≡ true }
    {
        Closers {
            percent: true,
            square: true,
            brace: true,
        }
    }

    fn behind_percent<'t>(&mut self, text: &'t [u8]) -> Option<&'t [u8]>
        requires { AreLeft self.old text.now }
        ensures gives { spec.behind_percent text.now ≡ option_map (λ rest. rest.now) result }
        ensures left { AreLeft self.new text.now }
    {
        let found = behind_left(self.percent, b"%>", text);
        self.percent = found.is_some();
        found
    }

    fn behind_square<'t>(&mut self, text: &'t [u8]) -> Option<&'t [u8]>
        requires { AreLeft self.old text.now }
        ensures gives { spec.behind_square text.now ≡ option_map (λ rest. rest.now) result }
        ensures left { AreLeft self.new text.now }
    {
        let found = behind_left(self.square, b"]]", text);
        self.square = found.is_some();
        found
    }

    fn behind_brace<'t>(&mut self, text: &'t [u8]) -> Option<&'t [u8]>
        requires { AreLeft self.old text.now }
        ensures gives { spec.behind_brace text.now ≡ option_map (λ rest. rest.now) result }
        ensures left { AreLeft self.new text.now }
    {
        let found = behind_left(self.brace, b"}", text);
        self.brace = found.is_some();
        past_braces(found)
    }

    // What is behind a hole, by the text at which it stands and what is behind its first byte.
    #[tactic(auto, unfolding(crate::specs::Holes::behind_hole_in))]
    fn behind_hole<'t>(&mut self, text: &[u8], behind: &'t [u8]) -> Option<&'t [u8]>
        requires { AreLeft self.old behind.now }
        ensures gives { spec.behind_hole_in text.now behind.now ≡ option_map (λ rest. rest.now) result }
        ensures left { AreLeft self.new behind.now }
    {
        if starts(text, b"<%") {
            self.behind_percent(behind)
        } else if starts(text, b"[[") {
            self.behind_square(behind)
        } else if begins_brace(text) {
            self.behind_brace(behind)
        } else if starts(text, b"%") {
            behind_format(behind)
        } else {
            None
        }
    }

    /// How many bytes the hole at the front has, 0 where none is. Linear in them, but for the first time that a mark doesn't come.
    #[tactic(auto, using(crate::proofs::HoleSteps::left_later))]
    pub(crate) fn hole_len(&mut self, text: &[u8]) -> usize
        requires { AreLeft self.old text.now }
        ensures gives { result ≡ spec.hole_len text.now }
        ensures within { result ≤ length text.now }
        ensures left { AreLeft self.new (drop 1 text.now) }
    {
        len_before(text, self.behind_hole(text, behind_byte(text)))
    }
}
