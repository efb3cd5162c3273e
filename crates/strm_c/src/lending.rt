//! Laws: the pool of a handle can be lent to readers, and comes back. strm.c does this by copies of words, which runs none of
//! these functions.
ghost use Rattle.std.specs.Prelude.{◌≡◌, ℕ, Some, IsSome, Ok};
ghost use base.Fraction.{Frac, full_share, left, right};
ghost use Rattle.strm_mblk.specs.Arena.{census_of};
ghost use Rattle.strm_named.specs.declared.named_pool.NamedPool.{NamedPool};
ghost use Rattle.strm_c.specs.Exports.{Asks};
ghost use Rattle.strm_c.specs.InC.{census_in_c};
ghost use Rattle.strm_c.specs.Rights.{coded_one, lender_owns};
ghost use Rattle.strm_c.specs.Viewing.{with_share};

use crate::handle::StrmPool;
use crate::layout::StrmCensus;
use crate::pointer::PoolPointer;
use crate::reader::StrmReader;
use crate::telling::strm_c_census;
use crate::view_pointer::ViewPointer;
use std::marker::Model;

/// What is left of a handle's pointer while the pool is lent: the pool again, once nobody can read it, and the right to free its
/// box.
#[derive(Drop)]
pub struct Lender {
    raw: *mut u8,
    pub ghost named: { NamedPool } by { coded_one },
    pub ghost life: { ℕ },
}

impl Model for Lender {
    ghost also_owns = { λ l. lender_owns l.raw l.named l.life };
}

/// Law: a pool can be lent. A reader has the whole right to read it.
pub fn lend(pool: PoolPointer) -> (ViewPointer, Lender)
    requires { IsSome pool.named }
    ensures { (result.0.named ≡ pool.named) × (Some result.1.named ≡ pool.named) × (result.0.life ≡ result.1.life)
        × (result.0.share ≡ full_share) × (result.0.raw ≡ pool.raw) × (result.1.raw ≡ pool.raw) }
{
    let PoolPointer { raw } = pool;
    (ViewPointer { raw }, Lender { raw })
}

/// Law: the right to read can be split, so that two readers have it at the same time, and so on. Both have half of it, and the
/// same address; nobody can copy either.
pub fn split(reader: ViewPointer) -> (ViewPointer, ViewPointer)
    requires { IsSome reader.named }
    ensures { (result.0 ≡ with_share reader (left reader.share)) × (result.1 ≡ with_share reader (right reader.share)) }
{
    let ViewPointer { raw } = reader;
    (ViewPointer { raw }, ViewPointer { raw })
}

/// Law: the rights of two readers can be joined again.
pub fn join(reader: ViewPointer, other: ViewPointer) -> ViewPointer
    ghost whole: { Frac }
    requires { IsSome reader.named × (other ≡ with_share reader (right whole)) × (reader.share ≡ left whole) }
    ensures { result ≡ with_share reader whole }
{
    let ViewPointer { raw } = reader;
    let ViewPointer { raw: _ } = other;
    ViewPointer { raw }
}

/// Law: once a reader has the whole right to read again, the pool comes back as it was.
pub fn end(lender: Lender, reader: ViewPointer) -> PoolPointer
    requires { IsSome reader.named × (reader.life ≡ lender.life) × (reader.share ≡ full_share) }
    ensures { (result.named ≡ Some lender.named) × (result.raw ≡ lender.raw) }
{
    let Lender { raw } = lender;
    let ViewPointer { raw: _ } = reader;
    PoolPointer { raw }
}

/// Law: the pool of an open handle can be lent to two readers at the same time. They have halves of the right to read it.
pub fn lend_to_two(handle: StrmPool) -> (StrmReader, StrmReader, Lender)
    requires { IsSome handle.at.named }
    ensures one { (result.0.at.raw ≡ handle.at.raw) × (result.0.at.named ≡ handle.at.named)
        × (result.0.at.life ≡ result.2.life) × (result.0.at.share ≡ left full_share) }
    ensures other { result.1.at ≡ with_share result.0.at (right full_share) }
    ensures lender { (result.2.raw ≡ handle.at.raw) × (Some result.2.named ≡ handle.at.named) }
{
    let StrmPool { at, state } = handle;
    let (reader, lender) = lend(at);
    let (at, other) = split(reader);
    (
        StrmReader { at, state },
        StrmReader { at: other, state },
        lender,
    )
}

/// Law: once both readers are given back, so is the handle.
pub fn take_back(lender: Lender, one: StrmReader, other: StrmReader) -> StrmPool
    requires one { IsSome one.at.named × (one.at.life ≡ lender.life) × (one.at.share ≡ left full_share) }
    requires other { other.at ≡ with_share one.at (right full_share) }
    ensures { (result.at.raw ≡ lender.raw) × (result.at.named ≡ Some lender.named) }
{
    let StrmReader { at, state } = one;
    let StrmReader {
        at: other,
        state: _,
    } = other;
    let at = end(lender, join(at, other));
    StrmPool { at, state }
}

/// Law: looks of two readers answer as if there was no other reader, and leave the readers as they were. So both can be given
/// back, and the handle has the same pool at the same address. Returns it, and the codes of both looks.
pub fn look_by_two(
    handle: StrmPool,
    first: &mut StrmCensus,
    second: &mut StrmCensus,
) -> (StrmPool, i32, i32)
    requires { IsSome handle.at.named }
    ensures back { result.0.at ≡ handle.at }
    ensures first { Asks (λ v. Ok (census_in_c (census_of v.pool.arena)))
        handle.at.named handle.at.named result.1 first.old first.new }
    ensures second { Asks (λ v. Ok (census_in_c (census_of v.pool.arena)))
        handle.at.named handle.at.named result.2 second.old second.new }
{
    let (mut one, mut other, lender) = lend_to_two(handle);
    let code = strm_c_census(&mut one, first);
    let other_code = strm_c_census(&mut other, second);
    (take_back(lender, one, other), code, other_code)
}
