use fort_bench::bank;
use std::test::Fail;

#[test]
fn the_bank_is_the_text_with_its_numbers(rt: HostRuntime) -> Result<(), Fail> {
    let text = bank(rt.alloc(), 3, 12).map_err(|_| "memory")?;
    let wanted = "component Bank
export Executable
object Account(var balance: ZZ32) end
object Overdraft extends Exception end
move(src: Account, dst: Account, amount: ZZ32): () = atomic do
  atomic do
    src.balance -= amount
    if src.balance < 0 then throw Overdraft end
  end
  dst.balance += amount
end
run(): () = do
  bank: Array[\\Account, ZZ32\\] = array[\\Account\\](3).fill(Account(0))
  for i <- 0#3 do bank[i] := Account(100) end
  for k <- 0#12 do
    a: Account = bank[(7 k) MOD 3]
    b: Account = bank[(11 k + 3) MOD 3]
    try
      tryatomic move(a, b, k MOD 120)
    catch e
      Overdraft => ()
    end
  end
  println(\"total \" (SUM[i <- 0#3] bank[i].balance))
end
end
";
    assert_eq!(rt; text.as_slice(), wanted.as_bytes());
    Ok(())
}
