ghost use Rattle.std.specs.Prelude.{◌≡◌, ◌++◌, decimal, IfOk, OnOk};
ghost use Rattle.fort_bench.specs.Bank.{bank};

use fort_base::{Bytes, List, Memory};
use itoa::Buffer;
use std::alloc::Global;

const HEAD: &str = "component Bank
export Executable
object Account(var balance: ZZ32) end
object Overdraft extends Exception end
move(src: Account, dst: Account, amount: ZZ32): () = atomic do
  atomic do
    src.balance -= amount
    if src.balance < 0 then throw Overdraft end
  end
  dst.balance += amount
end
run(): () = do
  bank: Array[\\Account, ZZ32\\] = array[\\Account\\](";

const FILLED: &str = ").fill(Account(0))
  for i <- 0#";

const OPENED: &str = " do bank[i] := Account(100) end
  for k <- 0#";

const FROM: &str = " do
    a: Account = bank[(7 k) MOD ";

const TO: &str = "]
    b: Account = bank[(11 k + 3) MOD ";

const MOVED: &str = "]
    try
      tryatomic move(a, b, k MOD 120)
    catch e
      Overdraft => ()
    end
  end
  println(\"total \" (SUM[i <- 0#";

const TAIL: &str = "] bank[i].balance))
end
end
";

/// The text of the bank: a component with so many accounts of 100 each, and so many transfers
/// between them at once, some of which fail. Run with enough fuel it prints `total ` and 100 times
/// the accounts. The chapter "The bank".
///
/// # Errors
///
/// `Memory` where memory is wanting.
pub fn bank(alloc: Global, accounts: u32, transfers: u32) -> Result<Bytes, Memory>
    ensures { IfOk result (λ text. text ≡ bank accounts transfers) }
{
    let mut text = List::new(alloc);
    push_with(&mut text, HEAD, accounts)?;
    push_with(&mut text, FILLED, accounts)?;
    push_with(&mut text, OPENED, transfers)?;
    push_with(&mut text, FROM, accounts)?;
    push_with(&mut text, TO, accounts)?;
    push_with(&mut text, MOVED, accounts)?;
    push(&mut text, TAIL)?;
    Ok(text)
}

/// Puts a piece of text at the end, and a number behind it, in decimal.
fn push_with(text: &mut Bytes, piece: &str, number: u32) -> Result<(), Memory>
    ensures { OnOk result (text.new ≡ text.old ++ piece.now ++ decimal number) }
{
    push(text, piece)?;
    let mut buffer = Buffer::new();
    text.push_slice(buffer.format(number).as_bytes())
}

/// Puts a piece of text at the end.
fn push(text: &mut Bytes, piece: &str) -> Result<(), Memory>
    ensures { OnOk result (text.new ≡ text.old ++ piece.now) }
{
    text.push_slice(piece.as_bytes())
}
