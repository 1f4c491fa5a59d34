//! Reading of the three texts of a page.
ghost use Rattle.std.specs.Prelude.{◌≡◌, ◌≤◌, ◌+◌, length, IfOk};
ghost use Rattle.tp_base.specs.declared.places.TheConstants.{MOST_BYTES};
ghost use Rattle.treeped_app.specs.Runs as spec;
ghost use Rattle.tree_sem.specs.Nodes.{IsTreeOver};
ghost use Rattle.tree_sem.specs.Trees.{count_of};
ghost use Rattle.sel_text.specs.Results.{IsFront};
ghost use Rattle.html_subset.specs.Reading as html;
ghost use Rattle.html_subset.specs.declared.faults.TheConstants.{MOST_PAGE_NODES};
ghost use Rattle.css_read.specs.Reading as css;
ghost use Rattle.css_read.specs.Places.{ArePlaced};
ghost use Rattle.css_read.specs.Readable.{AllReadable};
ghost use Rattle.css_read.specs.Views.{sheet_of};
ghost use Rattle.jq_stmts.specs.Sharp.{wides};
ghost use Rattle.jq_stmts.specs.Tables.{AreStatementsOver};
ghost use Rattle.jq_stmts.specs.Views.{statements_of};
ghost use Rattle.jq_exact.specs.Room.{HasRoom};
ghost use Rattle.jq_read.specs.Limits.{AreWithin};
ghost use Rattle.jq_read.specs.Script.{exact_script, script};
ghost use Rattle.treeped_app.specs.Inputs.{AreInputs, IsOpened, IsRead};
ghost use Rattle.treeped_app.specs.Modes as modes;
ghost use Rattle.run_ends.specs.Refusals.{page_stop, sheet_stop};
ghost use Rattle.treeped_app.specs.Views.{inputs_of, texts_of};
ghost use Rattle.jq_exact.specs.Scripts.{exact_in};

use command_words::Mode;
use css_read::{Sheet, read_sheet};
use html_subset::read_page;
use jq_exact::{Script, parted};
use jq_read::{read_exact, read_script};
use run_ends::{Part, Stop, page_stop, script_stop, sheet_stop};
use std::alloc::Global;
use tp_base::AtomTable;
use tree_sem::Tree;

/// The bytes of the three texts of a page.
#[derive(Clone, Copy)]
pub(crate) struct Texts<'a> {
    pub(crate) page: &'a [u8],
    pub(crate) sheet: &'a [u8],
    pub(crate) script: &'a [u8],
}

/// The page, the sheet and the script that were read, with their names.
#[derive(Drop)]
pub(crate) struct Inputs {
    pub(crate) page: Tree,
    pub(crate) sheet: Sheet,
    pub(crate) script: Script,
    pub(crate) atoms: AtomTable,
}

/// Reads the page, the sheet and the script, in this order, with one table of names. `page` is the page's number where there are
/// several pages.
#[tactic(auto, unfolding(crate::specs::Readings::read_inputs))]
pub(crate) fn read_all(
    alloc: Global,
    mode: Mode,
    number: Option<u32>,
    texts: &Texts<'_>,
) -> Result<Inputs, Stop>
    requires fit { spec.Fit (texts_of texts.now) }
    ensures read { IsRead (spec.read_inputs mode number (texts_of texts.now)) result }
    ensures given { IfOk result (λ i. AreInputs (inputs_of i)) }
    ensures room { IfOk result (λ i. HasRoom (inputs_of i).tree (inputs_of i).exact) }
    ensures placed { IfOk result (λ i. ArePlaced (length (texts_of texts.now).sheet) i.sheet.items) }
{
    let mut atoms = AtomTable::new(alloc);
    let page = open_page(alloc, Part::Page(number), texts.page, &mut atoms)?;
    let sheet = open_sheet(alloc, texts.sheet, &mut atoms)?;
    let script = open_script(alloc, mode, Part::Script(number), texts.script, &mut atoms)?;
    Ok(Inputs {
        page,
        sheet,
        script,
        atoms,
    })
}

// The tree of a page, or the reason to stop.
fn open_page(alloc: Global, part: Part, text: &[u8], atoms: &mut AtomTable) -> Result<Tree, Stop>
    requires { length text.now ≤ MOST_BYTES }
    ensures opened { IsOpened (λ t. t) (spec.read_as (page_stop part text.now) (html.read_page text.now atoms.old)) result atoms.new }
    ensures over { IfOk result (λ t. IsTreeOver (length atoms.new) t) }
    ensures few { IfOk result (λ t. count_of t ≤ MOST_PAGE_NODES + 1) }
{
    match read_page(alloc, text, atoms) {
        Ok(tree) => Ok(tree),
        Err(fault) => Err(page_stop(part, text, fault)),
    }
}

// The sheet, or the reason to stop.
fn open_sheet(alloc: Global, text: &[u8], atoms: &mut AtomTable) -> Result<Sheet, Stop>
    requires { length text.now ≤ MOST_BYTES }
    ensures opened { IsOpened sheet_of (spec.read_as (sheet_stop text.now) (css.read_sheet text.now atoms.old)) result atoms.new }
    ensures readable { IfOk result (λ s. AllReadable atoms.new (sheet_of s).items) }
    ensures placed { IfOk result (λ s. ArePlaced (length text.now) s.items) }
    ensures front { IsFront atoms.old atoms.new }
{
    match read_sheet(alloc, text, atoms) {
        Ok(sheet) => Ok(sheet),
        Err(fault) => Err(sheet_stop(text, fault)),
    }
}

// The statements of a script, or the reason to stop.
fn open_script(
    alloc: Global,
    mode: Mode,
    part: Part,
    text: &[u8],
    atoms: &mut AtomTable,
) -> Result<Script, Stop>
    requires { length text.now ≤ MOST_BYTES }
    ensures opened { IsOpened exact_in (spec.read_script_as part text.now (spec.statements_in mode text.now atoms.old)) result atoms.new }
    ensures wide { IfOk result (λ s. wides (exact_in s) ≡ statements_of s.stmts.items) }
    ensures over { IfOk result (λ s. AreStatementsOver (length atoms.new) (statements_of s.stmts.items)) }
    ensures within { IfOk result (λ s. AreWithin (statements_of s.stmts.items)) }
    ensures front { IsFront atoms.old atoms.new }
{
    if reads_exactly(mode) {
        open_exact(alloc, part, text, atoms)
    } else {
        open_plain(alloc, part, text, atoms)
    }
}

// Whether a mode allows sharp calls in a script. `--runs` and `--dead` don't: they speak of the statements that are judged.
fn reads_exactly(mode: Mode) -> bool
    ensures { result ≡ modes.reads_exactly mode }
{
    !matches!(mode, Mode::Dead | Mode::Runs)
}

// The statements of a script that may have sharp calls.
#[tactic(auto, using(crate::proofs::ReadingLemmas::not_opened))]
fn open_exact(alloc: Global, part: Part, text: &[u8], atoms: &mut AtomTable) -> Result<Script, Stop>
    requires { length text.now ≤ MOST_BYTES }
    ensures opened { IsOpened exact_in (spec.read_script_as part text.now (exact_script text.now atoms.old)) result atoms.new }
    ensures wide { IfOk result (λ s. wides (exact_in s) ≡ statements_of s.stmts.items) }
    ensures over { IfOk result (λ s. AreStatementsOver (length atoms.new) (statements_of s.stmts.items)) }
    ensures within { IfOk result (λ s. AreWithin (statements_of s.stmts.items)) }
    ensures front { IsFront atoms.old atoms.new }
{
    match read_exact(alloc, text, atoms) {
        Ok(statements) => {
            let script = parted(alloc, statements)?;
            Ok(script)
        }
        Err(fault) => Err(script_stop(part, text, fault)),
    }
}

// The statements of a script without sharp calls.
#[tactic(auto, using(crate::proofs::ReadingLemmas::not_opened))]
fn open_plain(alloc: Global, part: Part, text: &[u8], atoms: &mut AtomTable) -> Result<Script, Stop>
    requires { length text.now ≤ MOST_BYTES }
    ensures opened { IsOpened exact_in (spec.read_script_as part text.now (spec.plainly (script text.now atoms.old))) result atoms.new }
    ensures wide { IfOk result (λ s. wides (exact_in s) ≡ statements_of s.stmts.items) }
    ensures over { IfOk result (λ s. AreStatementsOver (length atoms.new) (statements_of s.stmts.items)) }
    ensures within { IfOk result (λ s. AreWithin (statements_of s.stmts.items)) }
    ensures front { IsFront atoms.old atoms.new }
{
    match read_script(alloc, text, atoms) {
        Ok(stmts) => Ok(Script {
            stmts,
            sharp: Vec::new(alloc),
        }),
        Err(fault) => Err(script_stop(part, text, fault)),
    }
}
