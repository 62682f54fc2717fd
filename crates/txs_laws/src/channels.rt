ghost use Rattle.txs_laws.specs.Channels.{NoChannelIsCaptured};

/// A body stands on the actual channels, and no HIDE of it binds one of them.
pub fn no_channel_is_captured()
    ensures { NoChannelIsCaptured }
{}
