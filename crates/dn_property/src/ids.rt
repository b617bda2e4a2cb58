//! The ids of a zone's properties (MS-DNSP 2.3.2.1.1).

/// Whether the zone is a cache, primary, secondary, stub or forwarder; shown, and not acted on.
pub const ZONE_TYPE: u32 = 0x01;

/// Which dynamic updates the zone takes.
pub const ALLOW_UPDATE: u32 = 0x02;

/// When the zone was made secure.
pub const SECURE_TIME: u32 = 0x08;

/// For how many hours after its time stamp a record isn't refreshed.
pub const NOREFRESH_INTERVAL: u32 = 0x10;

/// Which servers remove stale records of the zone.
pub const SCAVENGING_SERVERS: u32 = 0x11;

/// From which hour on stale records are removed.
pub const AGING_ENABLED_TIME: u32 = 0x12;

/// For how many hours after the interval without refresh a record may be refreshed before it is stale.
pub const REFRESH_INTERVAL: u32 = 0x20;

/// Whether records age.
pub const AGING_STATE: u32 = 0x40;

/// On which server the zone was deleted.
pub const DELETED_FROM_HOSTNAME: u32 = 0x80;

/// From which servers the zone is transferred.
pub const MASTER_SERVERS: u32 = 0x81;

/// Which servers may add themselves as name servers of the zone.
pub const AUTO_NS_SERVERS: u32 = 0x82;

/// How the zone is converted when its server becomes a domain controller.
pub const DCPROMO_CONVERT: u32 = 0x83;

/// Flags of the zone's nodes.
pub const NODE_DBFLAGS: u32 = 0x100;
