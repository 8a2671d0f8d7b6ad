// A store of either kind under any number of quotas. A quota over quotas grants what the least of them grants,
// so all quotas over the innermost are one.
use crate::either::Either;
use arena::arena::Arena;
use pages::pages::Pages;
use regions::quota::Quota;

// A store of either kind.
pub type Ground = Either<Arena, Pages>;

// A store, or one under a quota.
pub type Under<S> = Either<S, Quota<S>>;

// The innermost quota, and the one over it, each if there is one.
pub type Pile = Under<Under<Ground>>;
