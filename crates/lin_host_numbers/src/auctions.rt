// What the check of an auction answers, as numbers. (02: N1)
ghost use Rattle.std.specs.Prelude.{◌≡◌};
ghost use Rattle.lin_host_numbers.specs.Auctions.{without_contract, contract_numbers, result_numbers, auction_numbers};

use crate::answers::{LinAnswer, answer_numbers};
use bridge_auction::{Auction, Contract, doubling_number, strain_number};
use lin_spec::Refusal;

// outcome 0: refused. 1: ended without a bid. 2: ended with a contract: its level, its strain 0 to 4 for C D H S N, its doubling 0 to 2, its declarer 0 to 3
// for S W N E; these are 0 else. 3: open. 4: unlawful, with the index of the first unlawful call as the answer's value, which is 0 in 1, 2 and 3.
#[repr(C)]
#[derive(Clone, Copy)]
pub struct LinAuction {
    pub answer: LinAnswer,
    pub outcome: u32,
    pub level: u32,
    pub strain: u32,
    pub doubling: u32,
    pub declarer: u32,
}

// The numbers where there is no contract.
fn without_contract(answer: LinAnswer, outcome: u32) -> LinAuction
    ensures { result ≡ without_contract answer outcome }
{
    LinAuction {
        answer,
        outcome,
        level: 0,
        strain: 0,
        doubling: 0,
        declarer: 0,
    }
}

// The numbers of a contract.
fn contract_numbers(c: Contract) -> LinAuction
    ensures { result ≡ contract_numbers c }
{
    LinAuction {
        answer: answer_numbers(Ok(0)),
        outcome: 2,
        level: u32::from(c.level),
        strain: u32::from(strain_number(c.strain)),
        doubling: u32::from(doubling_number(c.doubling)),
        declarer: c.declarer.number() as u32,
    }
}

// The numbers of one of the four results.
fn result_numbers(a: Auction) -> LinAuction
    ensures { result ≡ result_numbers a }
{
    match a {
        Auction::PassedOut => without_contract(answer_numbers(Ok(0)), 1),
        Auction::Ended(c) => contract_numbers(c),
        Auction::Open => without_contract(answer_numbers(Ok(0)), 3),
        Auction::Unlawful(i) => without_contract(answer_numbers(Ok(i)), 4),
    }
}

// The numbers of an answer.
pub fn auction_numbers(a: Result<Auction, Refusal>) -> LinAuction
    ensures { result ≡ auction_numbers a }
{
    match a {
        Ok(x) => result_numbers(x),
        Err(r) => without_contract(answer_numbers(Err(r)), 0),
    }
}
