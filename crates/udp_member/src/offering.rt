//! The way of a channel's packets to a net.

ghost use Rattle.udp_member.specs.Offers.{Offers};

use channel::Channel;
use state_transfer::Receiver;
use udp_net::Net;

// Offers the net what waits in the channel, each packet once and in order, and lets all of it go.
pub(crate) fn offer_all<N: Net, R: Receiver>(net: &mut N, channel: &mut Channel<R>)
    ensures { Offers N.log N.failed net.old channel.old net.new channel.new }
{
    while let Some(packet) = channel.outgoing() {
        net.send(packet.destination.node(), packet.bytes.as_slice());
    }
    net.flush();
}
