//! What a machine needs of its host, as one bound.

use crate::names::HostNames;
use crate::servers::EndOfInput;
use crate::sharers::SharesFile;
use tt_host::ServiceHost;
use tt_report::{Disk, Journal};

/// What [`serve`](crate::serve) needs of its host. The runtime handle has all of it.
pub trait ServerHost: ServiceHost + EndOfInput + HostNames + SharesFile + Disk + Journal {}

impl<R: ServiceHost + EndOfInput + HostNames + SharesFile + Disk + Journal> ServerHost for R {}
