// Texts that are certificates, and texts that aren't.
use super::expect_right;
use certificate::{Certificate, CertificateFault, read, write};
use route_base::{Bound, NodeId};
use std::alloc::Global;

// A certificate with all kinds of lines.
const SAMPLE: &str = "\
lorry-certificate 1\n\
pairs 2\n\
pair 26563920 360000 3\n\
drive 1\n\
wait 120\n\
drive 2\n\
pair 26563980 300000 1\n\
drive 3\n\
bounds 3\n\
bound 1 120 120000\n\
bound 2 60 60000\n\
bound 3 0 0\n\
pieces 2\n\
piece 1 26563680 26563680 0 0\n\
piece 2 26563740 26563859 60000 2000\n\
end\n";

// A certificate with the largest numbers.
const LARGE: &str = "\
lorry-certificate 1\n\
pairs 2\n\
pair 0 0 0\n\
pair 120968639 10000000000000 2\n\
wait 120968639\n\
drive 1000000\n\
bounds 1\n\
bound 500000 10000000000 10000000000000\n\
pieces 3\n\
piece 1 0 1 0 10000000000\n\
piece 1 2 2 10000000000000 0\n\
piece 500000 0 120968639 7 0\n\
end\n";

// Texts of certificates.
const GOOD: &[&str] = &[
    SAMPLE,
    LARGE,
    "lorry-certificate 1\npairs 0\nbounds 0\npieces 0\nend\n",
];

// Whether the text is read, and written back.
fn is_written_back(alloc: Global, text: &str) -> bool {
    let Ok(certificate) = read(alloc, text.as_bytes()) else {
        return false;
    };
    match write(alloc, &certificate) {
        Ok(again) => again.as_slice() == text.as_bytes(),
        Err(_) => false,
    }
}

#[test]
fn reads_and_writes_back(rt: HostRuntime) {
    for text in GOOD {
        expect_right(&rt, is_written_back(rt.alloc(), text), text);
    }
}

// Whether the routes, bounds and functions of the sample are found.
fn has_sample(certificate: &Certificate) -> bool {
    let bound = Bound {
        minutes: 60,
        cost: 60_000,
    };
    let Some(function) = certificate.functions.at(NodeId(2)) else {
        return false;
    };
    certificate.routes.len() == 2
        && certificate.bounds.at(NodeId(2)).copied() == Some(bound)
        && certificate.bounds.at(NodeId(4)).is_none()
        && function.at(26_563_742) == Some(64_000)
}

// Whether they are read.
fn reads_sample(alloc: Global) -> bool {
    match read(alloc, SAMPLE.as_bytes()) {
        Ok(certificate) => has_sample(&certificate),
        Err(_) => false,
    }
}

#[test]
fn finds_by_node(rt: HostRuntime) {
    assert!(rt; reads_sample(rt.alloc()));
}

// Texts of no certificate.
const OTHERS: &[&str] = &[
    "",
    "\n",
    "\0\0\0",
    "lorry-certificate 1\npairs 0\nbounds 0\npieces 0\nend",
    "lorry-certificate 1\r\npairs 0\r\nbounds 0\r\npieces 0\r\nend\r\n",
    "lorry-certificate 1\npairs 0\nbounds 0\npieces 0\nend\n\n",
    "lorry-certificate 1\npairs 0\nbounds 0\npieces 0\nend\nend\n",
    "lorry-certificate 1\npairs 0\nbounds 0\nend\n",
    "lorry-certificate 1\npairs 0\nbounds 0\npieces 0\n",
    "lorry-certificate 2\npairs 0\nbounds 0\npieces 0\nend\n",
    "lorry-certificate 1\npairs 4398046511104\nbounds 0\npieces 0\nend\n",
    "lorry-certificate 1\npairs 0\nbounds 4294967295\npieces 0\nend\n",
    "lorry-certificate 1\npairs 00\nbounds 0\npieces 0\nend\n",
    "lorry-certificate 1\npairs 0 \nbounds 0\npieces 0\nend\n",
    "lorry-certificate 1\npairs  0\nbounds 0\npieces 0\nend\n",
    "lorry-certificate 1\npairs 1\nbounds 0\npieces 0\nend\n",
    "lorry-certificate 1\npairs 0\npair 1 1 0\nbounds 0\npieces 0\nend\n",
    "lorry-certificate 1\npairs 1\npair 1 1 1\nbounds 0\npieces 0\nend\n",
    "lorry-certificate 1\npairs 1\npair 1 1 0\ndrive 1\nbounds 0\npieces 0\nend\n",
    "lorry-certificate 1\npairs 1\npair 1 1 1\nwait 0\nbounds 0\npieces 0\nend\n",
    "lorry-certificate 1\npairs 1\npair 1 1 2\nwait 1\nwait 1\nbounds 0\npieces 0\nend\n",
    "lorry-certificate 1\npairs 1\npair 1 1 1\ndrive 0\nbounds 0\npieces 0\nend\n",
    "lorry-certificate 1\npairs 1\npair 1 1 1\ndrive 1000001\nbounds 0\npieces 0\nend\n",
    "lorry-certificate 1\npairs 1\npair 120968640 1 0\nbounds 0\npieces 0\nend\n",
    "lorry-certificate 1\npairs 1\npair 1 10000000000001 0\nbounds 0\npieces 0\nend\n",
    "lorry-certificate 1\npairs 0\nbounds 1\nbound 1 0120 0\npieces 0\nend\n",
    "lorry-certificate 1\npairs 0\nbounds 2\nbound 1 0 0\nbound 1 0 0\npieces 0\nend\n",
    "lorry-certificate 1\npairs 0\nbounds 2\nbound 2 0 0\nbound 1 0 0\npieces 0\nend\n",
    "lorry-certificate 1\npairs 0\nbounds 1\nbound 500001 0 0\npieces 0\nend\n",
    "lorry-certificate 1\npairs 0\nbounds 1\nbound 1 10000000001 0\npieces 0\nend\n",
    "lorry-certificate 1\npairs 0\nbounds 0\npieces 1\npiece 1 5 5 0 1\nend\n",
    "lorry-certificate 1\npairs 0\nbounds 0\npieces 1\npiece 1 6 5 0 0\nend\n",
    "lorry-certificate 1\npairs 0\nbounds 0\npieces 1\npiece 1 5 6 0 10000000001\nend\n",
    "lorry-certificate 1\npairs 0\nbounds 0\npieces 2\npiece 1 5 6 0 0\npiece 1 6 7 0 0\nend\n",
    "lorry-certificate 1\npairs 0\nbounds 0\npieces 2\npiece 2 5 6 0 0\npiece 1 5 6 0 0\nend\n",
    "lorry-certificate 1\npairs 0\nbounds 0\npieces 3\npiece 1 5 6 0 0\npiece 2 5 6 0 0\npiece 1 8 8 0 0\nend\n",
    "lorry-certificate 1\npairs 0\nbounds 0\npieces 1\npiece 1 5 6 0 0 0\nend\n",
];

// Whether the text is refused as one of no certificate.
fn is_refused(alloc: Global, text: &str) -> bool {
    match read(alloc, text.as_bytes()) {
        Ok(_) => false,
        Err(fault) => fault == CertificateFault::NotACertificate,
    }
}

#[test]
fn refuses_other_texts(rt: HostRuntime) {
    for text in OTHERS {
        expect_right(&rt, is_refused(rt.alloc(), text), text);
    }
}
