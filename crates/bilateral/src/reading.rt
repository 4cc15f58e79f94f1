ghost use Rattle.std.specs.Prelude.{◌≡◌, Ok, Err, IfOk, OnOk, MatchResult};
ghost use Rattle.bilateral.specs.declared.fault.TableFault.{TableFault as Fault};
ghost use Rattle.bilateral.specs.Rows.{CentreRows, IsCentre};
ghost use Rattle.bilateral.specs.Spelling.{Spells, HasFault};
ghost use Rattle.bilateral.specs.Reading.{centre_in, after_line};
ghost use Rattle.bilateral.specs.Store.{so_far, IsStore};

use crate::centre::Centre;
use crate::fault::{TableFault, TableWhy};
use crate::line::read_line;
use crate::store::Store;
use plain_text::{is_skipped, next_line};
use std::alloc::{AllocError, Global};

/// Reads the text of a centre's tables, or answers its first bad line. Lines count from 1, and the
/// count stands still at 2^64 - 1; empty lines and lines that begin with `#` are skipped.
pub fn read_centre(alloc: Global, text: &[u8]) -> Result<Result<Centre, TableFault>, AllocError>
    ensures found { IfOk result
        (λ read. MatchResult read (Spells text.now) (HasFault text.now)) }
    ensures only { (rows : CentreRows) → Spells text.now rows
        → IfOk result (λ read. read ≡ Ok rows) }
    ensures fault { (fault : Fault) → HasFault text.now fault
        → IfOk result (λ read. read ≡ Err fault) }
    ensures value { IfOk result (λ read. read ≡ centre_in text.now) }
    ensures lawful { IfOk result (λ read. IfOk read IsCentre) }
{
    read_lines(alloc, text)
}

/// Reads the lines one after another.
fn read_lines(alloc: Global, text: &[u8]) -> Result<Result<Centre, TableFault>, AllocError>
    ensures value { IfOk result (λ read. read ≡ centre_in text.now) }
    ensures lawful { IfOk result (λ read. IfOk read IsCentre) }
{
    let mut store = Store::new(alloc);
    let mut rest = text;
    let mut line: u64 = 1;
    while let Some((first, more)) = next_line(rest) {
        if let Err(why) = take_line(alloc, &mut store, first)? {
            return Ok(Err(TableFault { line, why }));
        }
        rest = more;
        line = line.saturating_add(1);
    }
    Ok(Ok(Centre::new(store)))
}

/// Takes in one line, or says why it can't be taken.
fn take_line(
    alloc: Global,
    store: &mut Store,
    line: &[u8],
) -> Result<Result<(), TableWhy>, AllocError>
    requires { IsStore store.old }
    ensures value { IfOk result
        (λ taken. MatchResult taken
        (λ _. after_line (so_far store.old) line.now ≡ Ok (so_far store.new))
        (λ why. after_line (so_far store.old) line.now ≡ Err why)) }
    ensures store { IfOk result (λ taken. OnOk taken (IsStore store.new)) }
{
    if is_skipped(line) {
        return Ok(Ok(()));
    }
    let Some(said) = read_line(alloc, line)? else {
        return Ok(Err(TableWhy::Word));
    };
    if let Some(why) = store.fault(&said) {
        return Ok(Err(why));
    }
    store.add(alloc, said)?;
    Ok(Ok(()))
}
