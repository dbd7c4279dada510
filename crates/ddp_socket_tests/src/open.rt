// Links that stand: what they tell their peers, and that none holds up another.
use crate::peers::{REQUEST, bytes, heard, is_answered, peer, rest, sends};
use crate::talk::{listening, next, tell};
use ddp_socket::{SocketLink, SocketNetwork, WakingStream};
use duct::{Link, Polled, SendFault};
use ejson_value::{Mem, Text};
use std::alloc::Global;
use std::io::{Read, Write};
use std::net::{Net, TcpListener, TcpStream};
use std::random::RandomSource;
use std::test::Fail;
use std::time::Clock;

// How many links stand at once.
const LINKS: usize = 64;

// How many bytes the texts of a peer have that reads nothing, and how many such texts it is sent at most.
const LONG: usize = 1000000;

const TEXTS: usize = 100;

// How often a link is polled that hears nothing: often enough that it waits longer than at first.
const SILENCE: usize = 60;

// The letter that they are made of, which no head has.
const LETTER: u8 = b'~';

// How often such a peer reads, once it does.
const READINGS: usize = 100000;

// Whether a peer that has sent its last text, and says so, is still answered.
fn answers_the_last_text<
    R: Net<Listener = TcpListener, Stream = TcpStream> + RandomSource + Clock + Copy + Send,
>(rt: R, alloc: Global, network: &mut SocketNetwork<R>, port: u16) -> Result<bool, Fail> {
    let text = bytes(alloc, "8182000000006869")?;
    let (mut peer, mut link) = sends(rt, network, port, &text)?;
    let heard_it = matches!(next(&mut link), Polled::Message(text) if text.as_str() == "hi");
    let told = tell(&mut link, Text::from_str(alloc, "yo")?);
    let ended = heard(alloc, &mut link)?.as_str() == "failed";
    drop(link);
    let answer = rest(alloc, &mut peer)?;
    Ok(heard_it && told && ended && is_answered(&answer, b"\x81\x02yo"))
}

// Whether a peer whose link is let go while it is open is told so, by the code 1000.
fn says_goodbye<
    R: Net<Listener = TcpListener, Stream = TcpStream> + RandomSource + Clock + Copy + Send,
>(rt: R, alloc: Global, network: &mut SocketNetwork<R>, port: u16) -> Result<bool, Fail> {
    let (mut peer, mut link) = peer(rt, network, port, REQUEST)?;
    let opened = matches!(link.poll(), Polled::Quiet);
    drop(link);
    let answer = rest(alloc, &mut peer)?;
    Ok(opened && is_answered(&answer, b"\x88\x02\x03\xe8"))
}

// So many peers, each with its link behind the handshake.
fn many<R: Net<Listener = TcpListener, Stream = TcpStream> + RandomSource + Clock + Copy + Send>(
    rt: R,
    alloc: Global,
    network: &mut SocketNetwork<R>,
    port: u16,
) -> Result<Vec<(TcpStream, SocketLink<WakingStream, R>)>, Fail> {
    let mut all = Vec::new(alloc);
    for _ in 0..LINKS {
        all.push(sends(rt, network, port, b"\x81\x82\0\0\0\0hi")?)?;
    }
    Ok(all)
}

// Whether each of many links that stand at once gives the text of its peer, and takes one for it.
fn stand_at_once<
    R: Net<Listener = TcpListener, Stream = TcpStream> + RandomSource + Clock + Copy + Send,
>(rt: R, alloc: Global, network: &mut SocketNetwork<R>, port: u16) -> Result<bool, Fail> {
    let mut all = many(rt, alloc, network, port)?;
    for (_peer, link) in all.iter_mut() {
        let text = Text::from_str(alloc, "yo")?;
        if !matches!(next(link), Polled::Message(text) if text.as_str() == "hi")
            || !tell(link, text)
        {
            return Ok(false);
        }
    }
    for (mut peer, link) in all {
        drop(link);
        if !is_answered(&rest(alloc, &mut peer)?, b"\x81\x02yo\x88\x02\x03\xe8") {
            return Ok(false);
        }
    }
    Ok(true)
}

// Whether a link that heard nothing for a while gives a text that comes then, and the next one.
fn hears_after_silence<
    R: Net<Listener = TcpListener, Stream = TcpStream> + RandomSource + Clock + Copy + Send,
>(rt: R, network: &mut SocketNetwork<R>, port: u16) -> Result<bool, Fail> {
    let (mut peer, mut link) = peer(rt, network, port, REQUEST)?;
    for _ in 0..SILENCE {
        if !matches!(link.poll(), Polled::Quiet) {
            return Ok(false);
        }
    }
    peer.write_all(b"\x81\x82\0\0\0\0hi")?;
    let heard_it = matches!(next(&mut link), Polled::Message(text) if text.as_str() == "hi");
    peer.write_all(b"\x81\x82\0\0\0\0yo")?;
    let heard_more = matches!(next(&mut link), Polled::Message(text) if text.as_str() == "yo");
    Ok(heard_it && heard_more)
}

// A text that is long.
fn long(alloc: Global) -> Result<Text, Mem> {
    let mut text = Text::new(alloc);
    for _ in 0..LONG / 10 {
        text.push_str("~~~~~~~~~~")?;
    }
    Ok(text)
}

// How many long texts a link takes before it is full; none where it never is, or fails.
fn taken<L: Link>(alloc: Global, link: &mut L) -> Result<Option<usize>, Mem> {
    let text = long(alloc)?;
    for count in 0..TEXTS {
        match link.send(text.copy()?) {
            Ok(()) => {}
            Err((_, SendFault::Full)) => return Ok(Some(count)),
            Err(_) => return Ok(None),
        }
    }
    Ok(None)
}

// Whether all of so many texts come to a peer that reads at last, while its link is only polled.
fn come_at_last<L: Link>(peer: &mut TcpStream, link: &mut L, texts: usize) -> Result<bool, Fail> {
    let mut part = [0; 65536];
    let mut left = texts.saturating_mul(LONG);
    for _ in 0..READINGS {
        if left == 0 {
            return Ok(true);
        }
        let read = peer.read(&mut part)?;
        let letters = part[..read].iter().filter(|byte| **byte == LETTER).count();
        left = left.saturating_sub(letters);
        if !matches!(link.poll(), Polled::Quiet) {
            return Ok(false);
        }
    }
    Ok(false)
}

// Whether a peer that reads nothing holds up no other, and is sent all that its link took once it reads.
fn holds_up_no_other<
    R: Net<Listener = TcpListener, Stream = TcpStream> + RandomSource + Clock + Copy + Send,
>(rt: R, alloc: Global, network: &mut SocketNetwork<R>, port: u16) -> Result<bool, Fail> {
    let (mut slow, mut link) = peer(rt, network, port, REQUEST)?;
    if !matches!(link.poll(), Polled::Quiet) {
        return Ok(false);
    }
    let Some(texts) = taken(alloc, &mut link)? else {
        return Ok(false);
    };
    let beside = answers_the_last_text(rt, alloc, network, port)?;
    Ok(beside && come_at_last(&mut slow, &mut link, texts)?)
}

fn all_stand<
    R: Net<Listener = TcpListener, Stream = TcpStream> + RandomSource + Clock + Copy + Send,
>(rt: R, alloc: Global) -> Result<bool, Fail> {
    let mut network = SocketNetwork::new(rt, alloc);
    let Some(port) = listening(&mut network) else {
        return Ok(false);
    };
    Ok(
        answers_the_last_text(rt, alloc, &mut network, port)?
            && says_goodbye(rt, alloc, &mut network, port)?
            && stand_at_once(rt, alloc, &mut network, port)?
            && holds_up_no_other(rt, alloc, &mut network, port)?
            && hears_after_silence(rt, &mut network, port)?,
    )
}

#[test]
fn links_stand_beside_each_other(rt: HostRuntime) -> Result<(), Fail> {
    assert!(rt; all_stand(rt, rt.alloc())?);
    Ok(())
}
