//! A bank that keeps its accounts in a store: bank TRANSFERS. It opens the store in the files `bank.log` and `bank.data` of
//! the current folder, or makes it there, and prints what stands on each account and the sum of all. Then four tellers make
//! so many transfers, each in a thread of its own. A transfer is printed once its group is flushed: so it is there after a
//! crash, and none is there by half. There is no rollback, and only the locks of the accounts keep transfers apart.
#![tactic(auto)]

ghost use Rattle.std.specs.Prelude.{⊤, ◌≡◌, ◌≢◌, ◌<◌, IfOk, vec_len};
ghost use Rattle.bank.specs.Opening.{IsBank};
ghost use Rattle.bank.specs.declared.TheConstants.{ACCOUNTS};
ghost use Rattle.model_base.specs.{default_shape};
ghost use Rattle.model_script.specs.{IsInRange};
ghost use Rattle.redo_apply.specs.{ArePagesOf};
ghost use Rattle.redo_live.specs.Holding.{IsUserOf};
ghost use Rattle.redo_live.specs.Serving.{Stays};

use anyhow::{Result, ensure};
use byteorder::{BigEndian, ByteOrder};
use model_base::{LSN_LIMIT, Shape, USER_START};
use model_script::{Item, Items};
use redo_apply::Pages;
use redo_disk::Sectors;
use redo_live::{Store, User, Work};
use redo_memdisk::{Access, FileDisk, Unread};
use redo_open::{format, open_store};
use redo_rule::Left;
use redo_store::Opened;
use std::alloc::Global;
use std::sync::{Mutex, Wait};
use std::thread::Threads;
use std::{env, mem};

/// How many accounts there are: eight on each page.
const ACCOUNTS: u32 = 64;
/// What stands on each account at first. A page holds how far from that its accounts are, by eight bytes for each.
const AT_FIRST: u64 = 1000;
/// How many tellers there are.
const TELLERS: usize = 4;
/// The mode of a commit that is answered once its group is flushed.
const FLUSHED: u32 = 1;

/// An open bank, which its tellers share. Who locks two balances locks the lower account's first; who has `printing` prints.
#[derive(Drop)]
struct Bank<'a, R> {
    rt: &'a R,
    alloc: Global,
    start: u64,
    transfers: u64,
    balances: Vec<Mutex<u64>>,
    printing: Mutex<()>,
    ghost all: { vec_len balances ≡ ACCOUNTS },
}

/// The write by which this stands on the account.
fn put_balance(account: u32, balance: u64) -> Item
    requires { account < ACCOUNTS }
    ensures { IsInRange result }
{
    Item::Num {
        width: 8,
        page: account / 8,
        offset: USER_START + account % 8 * 8,
        value: balance.wrapping_sub(AT_FIRST),
    }
}

/// The transfer of this number in a run that starts at this lsn: from which account, to which other one, and how much at most.
fn drawn(start: u64, number: u64) -> (u32, u32, u64)
    ensures { (result.0 < ACCOUNTS) × (result.1 < ACCOUNTS) × (result.0 ≢ result.1) }
{
    let mixed = u64::wrapping_mul(start.wrapping_add(number), 0x9E37_79B9_7F4A_7C15);
    let mixed = (mixed ^ mixed >> 32).wrapping_mul(0xD6E8_FEB8_6659_FD93) >> 24;
    let (from, away) = ((mixed % 64) as u32, 1 + (mixed / 64 % 63) as u32);
    (from, (from + away) % 64, 1 + mixed / 4096 % 100)
}

impl<'a, R: Wait + Print> Bank<'a, R> {
    /// Makes the transfer of this number, of no more than stands on the account, by one group of two writes. Prints it with the
    /// lsn at which the group ends. Both accounts are locked from the first read up to there.
    fn transfer<D: Sectors>(
        &self,
        store: &Store<D, D>,
        user: &mut User<D, D>,
        number: u64,
    ) -> Result<()>
        requires { IsUserOf store.now user.old }
        ensures { Stays store.now user.old user.new }
    {
        let (from, to, most) = drawn(self.start, number);
        let mut source = self.balances[from.min(to) as usize].lock(self.rt);
        let mut target = self.balances[from.max(to) as usize].lock(self.rt);
        if to < from {
            mem::swap(&mut source, &mut target);
        }
        let amount = most.min(*source);
        let (left, grown) = (*source - amount, target.wrapping_add(amount));
        let items = Items(vec![in self.alloc; put_balance(from, left), put_balance(to, grown)]?);
        let answer = user.commit(store, self.rt, self.alloc, FLUSHED, items);
        let end = answer.map_err(|(refused, _)| refused)?;
        (*source, *target) = (left, grown);
        let _printing = self.printing.lock(self.rt);
        Ok(println!(self.rt; "transfer {number} from {from} to {to} of {amount} done {end}")?)
    }
}

impl<'a, R: Wait + Print + Eprint, D: Sectors> Work<D, D> for Bank<'a, R> {
    ghost does = { λ _ _ _ _ _. ⊤ };

    /// Makes each transfer of a teller, of those that all make, up to the first that fails.
    fn serve(&self, store: &Store<D, D>, teller: usize, user: &mut User<D, D>) {
        for number in (teller as u64..self.transfers).step_by(TELLERS) {
            if let Err(error) = self.transfer(store, user, number) {
                let _ = eprintln!(self.rt; "teller {teller}: {error}");
                return;
            }
        }
    }
}

/// The store on these devices, if it is a bank's. Where the blocks of the log's header are zero it is made first.
fn open<D: Sectors + Drop>(alloc: Global, mut log: D, mut data: D) -> Result<Opened<D, D>>
    ensures { IfOk result IsBank }
{
    let sizes = Shape::default_shape();
    ensure!(1536 <= log.len(), "the log device has no room for a header");
    let mut heads = [0; 1536];
    log.read(0, &mut heads)?;
    let mut bytes = heads.iter().enumerate();
    if bytes.all(|(i, byte)| *byte == 0 || i / 512 == 1) {
        format(&mut log, &mut data, &sizes)?;
    }
    let opened = match open_store(alloc, log, data) {
        Ok(opened) => opened,
        Err((fault, _, _)) => return Err(fault.into()),
    };
    ensure!(opened.shape == sizes, "the files hold another store");
    ensure!(opened.start < LSN_LIMIT, "the log is at its end");
    Ok(opened)
}

/// What stands on each account. Prints it, and the sum of all.
fn read_balances<R: Print>(rt: &R, alloc: Global, pages: &Pages) -> Result<Vec<Mutex<u64>>>
    requires { ArePagesOf default_shape pages.now }
    ensures { IfOk result (λ balances. vec_len balances ≡ ACCOUNTS) }
{
    let (mut balances, mut sum) = (Vec::with_capacity(alloc, ACCOUNTS as usize)?, 0u64);
    for account in 0..ACCOUNTS {
        let at = (account % 8 * 8) as usize;
        let held = BigEndian::read_u64(&pages.user_bytes(account / 8)[at..at + 8]);
        let balance = held.wrapping_add(AT_FIRST);
        println!(rt; "account {account} {balance}")?;
        sum = sum.wrapping_add(balance);
        balances.push_reserved(Mutex::new(balance));
    }
    println!(rt; "sum {sum}")?;
    Ok(balances)
}

/// The tellers of the bank make all transfers in its store.
fn serve_bank<R: Threads + Wait + Print + Eprint + Sync, D: Sectors + Drop + Send + Sync>(
    bank: &Bank<R>,
    opened: Opened<D, D>,
) -> Result<()>
    requires { IsBank opened }
{
    let live = Store::open(bank.rt, bank.alloc, opened, TELLERS as u32, false);
    let (store, mut users, mut workers) = live.map_err(|(no_memory, _, _)| no_memory)?;
    store.serve(bank.rt, bank, users.as_mut_slice(), workers.as_mut_slice());
    let Left {
        code,
        marks: _,
        log: _,
        store: _,
        work: _,
    } = store.close(bank.rt, users, workers);
    ensure!(code == 0, "the store has failed with code {code}");
    Ok(())
}

/// The device in the file of this name.
fn device<'a>(rt: &'a HostRuntime, name: &str) -> Result<FileDisk<&'a HostRuntime, Unread>> {
    Ok(FileDisk::new(rt, name.to_string(rt.alloc())?, Access::Writing))
}

/// Opens the bank, and makes the transfers.
fn main(rt: HostRuntime) -> Result<()> {
    let (rt, alloc) = (&rt, rt.alloc());
    let mut words = env::args(rt)?;
    let transfers = words.nth(1).map_or(Ok(0), |word| word.as_str().parse())?;
    let opened = open(alloc, device(rt, "bank.log")?, device(rt, "bank.data")?)?;
    println!(rt; "start {}", opened.start)?;
    let bank = Bank {
        rt,
        alloc,
        start: opened.start,
        transfers,
        balances: read_balances(rt, alloc, &opened.pages)?,
        printing: Mutex::new(()),
    };
    serve_bank(&bank, opened)
}
