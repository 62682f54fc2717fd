//! The reserved words by their numbers, the places in the list of docs/LANGUAGE.md.

pub const TYPEDEF: u32 = 0;

pub const FUNCDEF: u32 = 1;

pub const CONSTDEF: u32 = 2;

pub const CHANDEF: u32 = 3;

pub const PROCDEF: u32 = 4;

pub const STAUTDEF: u32 = 5;

pub const MODELDEF: u32 = 6;

pub const PURPDEF: u32 = 7;

pub const CNECTDEF: u32 = 8;

pub const ENDDEF: u32 = 9;

pub const CHAN: u32 = 10;

pub const IN: u32 = 11;

pub const OUT: u32 = 12;

pub const SYNC: u32 = 13;

pub const BEHAVIOUR: u32 = 14;

pub const STATE: u32 = 15;

pub const VAR: u32 = 16;

pub const INIT: u32 = 17;

pub const TRANS: u32 = 18;

pub const GOAL: u32 = 19;

pub const CLIENTSOCK: u32 = 20;

pub const SERVERSOCK: u32 = 21;

pub const HOST: u32 = 22;

pub const PORT: u32 = 23;

pub const ENCODE: u32 = 24;

pub const DECODE: u32 = 25;

pub const STOP: u32 = 26;

pub const EXIT: u32 = 27;

pub const HIT: u32 = 28;

pub const MISS: u32 = 29;

pub const ISTEP: u32 = 30;

pub const ACCEPT: u32 = 31;

pub const NI: u32 = 32;

pub const HIDE: u32 = 33;

pub const LET: u32 = 34;

pub const IF: u32 = 35;

pub const THEN: u32 = 36;

pub const ELSE: u32 = 37;

pub const FI: u32 = 38;

pub const QUIET: u32 = 39;
