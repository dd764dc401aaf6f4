//! The names of libraries, each up to its first NUL.

/// The libraries that `.Lb` names.
pub(crate) static LIBRARIES: [([u8; 15], [u8; 78]); 110] = [
    (
        *b"lib80211\0\0\0\0\0\0\0",
        *b"802.11 Wireless Network Management Library (lib80211, -l80211)\0\0\0\0\0\0\0\0\0\0\0\0\0\0\0\0",
    ),
    (
        *b"libSystem\0\0\0\0\0\0",
        *b"System Library (libSystem, -lSystem)\0\0\0\0\0\0\0\0\0\0\0\0\0\0\0\0\0\0\0\0\0\0\0\0\0\0\0\0\0\0\0\0\0\0\0\0\0\0\0\0\0\0",
    ),
    (
        *b"libalias\0\0\0\0\0\0\0",
        *b"Packet Aliasing Library (libalias, -lalias)\0\0\0\0\0\0\0\0\0\0\0\0\0\0\0\0\0\0\0\0\0\0\0\0\0\0\0\0\0\0\0\0\0\0\0",
    ),
    (
        *b"libarchive\0\0\0\0\0",
        *b"Streaming Archive Library (libarchive, -larchive)\0\0\0\0\0\0\0\0\0\0\0\0\0\0\0\0\0\0\0\0\0\0\0\0\0\0\0\0\0",
    ),
    (
        *b"libarm\0\0\0\0\0\0\0\0\0",
        *b"ARM Architecture Library (libarm, -larm)\0\0\0\0\0\0\0\0\0\0\0\0\0\0\0\0\0\0\0\0\0\0\0\0\0\0\0\0\0\0\0\0\0\0\0\0\0\0",
    ),
    (
        *b"libarm32\0\0\0\0\0\0\0",
        *b"ARM32 Architecture Library (libarm32, -larm32)\0\0\0\0\0\0\0\0\0\0\0\0\0\0\0\0\0\0\0\0\0\0\0\0\0\0\0\0\0\0\0\0",
    ),
    (
        *b"libbe\0\0\0\0\0\0\0\0\0\0",
        *b"Boot Environment Library (libbe, -lbe)\0\0\0\0\0\0\0\0\0\0\0\0\0\0\0\0\0\0\0\0\0\0\0\0\0\0\0\0\0\0\0\0\0\0\0\0\0\0\0\0",
    ),
    (
        *b"libbluetooth\0\0\0",
        *b"Bluetooth Library (libbluetooth, -lbluetooth)\0\0\0\0\0\0\0\0\0\0\0\0\0\0\0\0\0\0\0\0\0\0\0\0\0\0\0\0\0\0\0\0\0",
    ),
    (
        *b"libbsdxml\0\0\0\0\0\0",
        *b"eXpat XML parser library (libbsdxml, -lbsdxml)\0\0\0\0\0\0\0\0\0\0\0\0\0\0\0\0\0\0\0\0\0\0\0\0\0\0\0\0\0\0\0\0",
    ),
    (
        *b"libbsm\0\0\0\0\0\0\0\0\0",
        *b"Basic Security Module Library (libbsm, -lbsm)\0\0\0\0\0\0\0\0\0\0\0\0\0\0\0\0\0\0\0\0\0\0\0\0\0\0\0\0\0\0\0\0\0",
    ),
    (
        *b"libc\0\0\0\0\0\0\0\0\0\0\0",
        *b"Standard C Library (libc, -lc)\0\0\0\0\0\0\0\0\0\0\0\0\0\0\0\0\0\0\0\0\0\0\0\0\0\0\0\0\0\0\0\0\0\0\0\0\0\0\0\0\0\0\0\0\0\0\0\0",
    ),
    (
        *b"libc_r\0\0\0\0\0\0\0\0\0",
        *b"Reentrant C Library (libc_r, -lc_r)\0\0\0\0\0\0\0\0\0\0\0\0\0\0\0\0\0\0\0\0\0\0\0\0\0\0\0\0\0\0\0\0\0\0\0\0\0\0\0\0\0\0\0",
    ),
    (
        *b"libcalendar\0\0\0\0",
        *b"Calendar Arithmetic Library (libcalendar, -lcalendar)\0\0\0\0\0\0\0\0\0\0\0\0\0\0\0\0\0\0\0\0\0\0\0\0\0",
    ),
    (
        *b"libcam\0\0\0\0\0\0\0\0\0",
        *b"Common Access Method User Library (libcam, -lcam)\0\0\0\0\0\0\0\0\0\0\0\0\0\0\0\0\0\0\0\0\0\0\0\0\0\0\0\0\0",
    ),
    (
        *b"libcasper\0\0\0\0\0\0",
        *b"Casper Library (libcasper, -lcasper)\0\0\0\0\0\0\0\0\0\0\0\0\0\0\0\0\0\0\0\0\0\0\0\0\0\0\0\0\0\0\0\0\0\0\0\0\0\0\0\0\0\0",
    ),
    (
        *b"libcdk\0\0\0\0\0\0\0\0\0",
        *b"Curses Development Kit Library (libcdk, -lcdk)\0\0\0\0\0\0\0\0\0\0\0\0\0\0\0\0\0\0\0\0\0\0\0\0\0\0\0\0\0\0\0\0",
    ),
    (
        *b"libcipher\0\0\0\0\0\0",
        *b"FreeSec Crypt Library (libcipher, -lcipher)\0\0\0\0\0\0\0\0\0\0\0\0\0\0\0\0\0\0\0\0\0\0\0\0\0\0\0\0\0\0\0\0\0\0\0",
    ),
    (
        *b"libcompat\0\0\0\0\0\0",
        *b"Compatibility Library (libcompat, -lcompat)\0\0\0\0\0\0\0\0\0\0\0\0\0\0\0\0\0\0\0\0\0\0\0\0\0\0\0\0\0\0\0\0\0\0\0",
    ),
    (
        *b"libcrypt\0\0\0\0\0\0\0",
        *b"Crypt Library (libcrypt, -lcrypt)\0\0\0\0\0\0\0\0\0\0\0\0\0\0\0\0\0\0\0\0\0\0\0\0\0\0\0\0\0\0\0\0\0\0\0\0\0\0\0\0\0\0\0\0\0",
    ),
    (
        *b"libcurses\0\0\0\0\0\0",
        *b"Curses Library (libcurses, -lcurses)\0\0\0\0\0\0\0\0\0\0\0\0\0\0\0\0\0\0\0\0\0\0\0\0\0\0\0\0\0\0\0\0\0\0\0\0\0\0\0\0\0\0",
    ),
    (
        *b"libcuse\0\0\0\0\0\0\0\0",
        *b"Userland Character Device Library (libcuse, -lcuse)\0\0\0\0\0\0\0\0\0\0\0\0\0\0\0\0\0\0\0\0\0\0\0\0\0\0\0",
    ),
    (
        *b"libdevattr\0\0\0\0\0",
        *b"Device attribute and event library (libdevattr, -ldevattr)\0\0\0\0\0\0\0\0\0\0\0\0\0\0\0\0\0\0\0\0",
    ),
    (
        *b"libdevctl\0\0\0\0\0\0",
        *b"Device Control Library (libdevctl, -ldevctl)\0\0\0\0\0\0\0\0\0\0\0\0\0\0\0\0\0\0\0\0\0\0\0\0\0\0\0\0\0\0\0\0\0\0",
    ),
    (
        *b"libdevinfo\0\0\0\0\0",
        *b"Device and Resource Information Utility Library (libdevinfo, -ldevinfo)\0\0\0\0\0\0\0",
    ),
    (
        *b"libdevstat\0\0\0\0\0",
        *b"Device Statistics Library (libdevstat, -ldevstat)\0\0\0\0\0\0\0\0\0\0\0\0\0\0\0\0\0\0\0\0\0\0\0\0\0\0\0\0\0",
    ),
    (
        *b"libdisk\0\0\0\0\0\0\0\0",
        *b"Interface to Slice and Partition Labels Library (libdisk, -ldisk)\0\0\0\0\0\0\0\0\0\0\0\0\0",
    ),
    (
        *b"libdl\0\0\0\0\0\0\0\0\0\0",
        *b"Dynamic Linker Services Filter (libdl, -ldl)\0\0\0\0\0\0\0\0\0\0\0\0\0\0\0\0\0\0\0\0\0\0\0\0\0\0\0\0\0\0\0\0\0\0",
    ),
    (
        *b"libdm\0\0\0\0\0\0\0\0\0\0",
        *b"Device Mapper Library (libdm, -ldm)\0\0\0\0\0\0\0\0\0\0\0\0\0\0\0\0\0\0\0\0\0\0\0\0\0\0\0\0\0\0\0\0\0\0\0\0\0\0\0\0\0\0\0",
    ),
    (
        *b"libdwarf\0\0\0\0\0\0\0",
        *b"DWARF Access Library (libdwarf, -ldwarf)\0\0\0\0\0\0\0\0\0\0\0\0\0\0\0\0\0\0\0\0\0\0\0\0\0\0\0\0\0\0\0\0\0\0\0\0\0\0",
    ),
    (
        *b"libedit\0\0\0\0\0\0\0\0",
        *b"Command Line Editor Library (libedit, -ledit)\0\0\0\0\0\0\0\0\0\0\0\0\0\0\0\0\0\0\0\0\0\0\0\0\0\0\0\0\0\0\0\0\0",
    ),
    (
        *b"libefi\0\0\0\0\0\0\0\0\0",
        *b"EFI Runtime Services Library (libefi, -lefi)\0\0\0\0\0\0\0\0\0\0\0\0\0\0\0\0\0\0\0\0\0\0\0\0\0\0\0\0\0\0\0\0\0\0",
    ),
    (
        *b"libelf\0\0\0\0\0\0\0\0\0",
        *b"ELF Access Library (libelf, -lelf)\0\0\0\0\0\0\0\0\0\0\0\0\0\0\0\0\0\0\0\0\0\0\0\0\0\0\0\0\0\0\0\0\0\0\0\0\0\0\0\0\0\0\0\0",
    ),
    (
        *b"libevent\0\0\0\0\0\0\0",
        *b"Event Notification Library (libevent, -levent)\0\0\0\0\0\0\0\0\0\0\0\0\0\0\0\0\0\0\0\0\0\0\0\0\0\0\0\0\0\0\0\0",
    ),
    (
        *b"libexecinfo\0\0\0\0",
        *b"Backtrace Information Library (libexecinfo, -lexecinfo)\0\0\0\0\0\0\0\0\0\0\0\0\0\0\0\0\0\0\0\0\0\0\0",
    ),
    (
        *b"libfetch\0\0\0\0\0\0\0",
        *b"File Transfer Library (libfetch, -lfetch)\0\0\0\0\0\0\0\0\0\0\0\0\0\0\0\0\0\0\0\0\0\0\0\0\0\0\0\0\0\0\0\0\0\0\0\0\0",
    ),
    (
        *b"libform\0\0\0\0\0\0\0\0",
        *b"Curses Form Library (libform, -lform)\0\0\0\0\0\0\0\0\0\0\0\0\0\0\0\0\0\0\0\0\0\0\0\0\0\0\0\0\0\0\0\0\0\0\0\0\0\0\0\0\0",
    ),
    (
        *b"libfsid\0\0\0\0\0\0\0\0",
        *b"Filesystem Identification Library (libfsid, -lfsid)\0\0\0\0\0\0\0\0\0\0\0\0\0\0\0\0\0\0\0\0\0\0\0\0\0\0\0",
    ),
    (
        *b"libftpio\0\0\0\0\0\0\0",
        *b"FTP Connection Management Library (libftpio, -lftpio)\0\0\0\0\0\0\0\0\0\0\0\0\0\0\0\0\0\0\0\0\0\0\0\0\0",
    ),
    (
        *b"libgeom\0\0\0\0\0\0\0\0",
        *b"Userland API Library for Kernel GEOM subsystem (libgeom, -lgeom)\0\0\0\0\0\0\0\0\0\0\0\0\0\0",
    ),
    (
        *b"libgpib\0\0\0\0\0\0\0\0",
        *b"General-Purpose Instrument Bus (GPIB) library (libgpib, -lgpib)\0\0\0\0\0\0\0\0\0\0\0\0\0\0\0",
    ),
    (
        *b"libgpio\0\0\0\0\0\0\0\0",
        *b"General-Purpose Input Output (GPIO) library (libgpio, -lgpio)\0\0\0\0\0\0\0\0\0\0\0\0\0\0\0\0\0",
    ),
    (
        *b"libhammer\0\0\0\0\0\0",
        *b"HAMMER Filesystem Userland Library (libhammer, -lhammer)\0\0\0\0\0\0\0\0\0\0\0\0\0\0\0\0\0\0\0\0\0\0",
    ),
    (
        *b"libi386\0\0\0\0\0\0\0\0",
        *b"i386 Architecture Library (libi386, -li386)\0\0\0\0\0\0\0\0\0\0\0\0\0\0\0\0\0\0\0\0\0\0\0\0\0\0\0\0\0\0\0\0\0\0\0",
    ),
    (
        *b"libintl\0\0\0\0\0\0\0\0",
        *b"Internationalized Message Handling Library (libintl, -lintl)\0\0\0\0\0\0\0\0\0\0\0\0\0\0\0\0\0\0",
    ),
    (
        *b"libipsec\0\0\0\0\0\0\0",
        *b"IPsec Policy Control Library (libipsec, -lipsec)\0\0\0\0\0\0\0\0\0\0\0\0\0\0\0\0\0\0\0\0\0\0\0\0\0\0\0\0\0\0",
    ),
    (
        *b"libipx\0\0\0\0\0\0\0\0\0",
        *b"IPX Address Conversion Support Library (libipx, -lipx)\0\0\0\0\0\0\0\0\0\0\0\0\0\0\0\0\0\0\0\0\0\0\0\0",
    ),
    (
        *b"libiscsi\0\0\0\0\0\0\0",
        *b"iSCSI protocol library (libiscsi, -liscsi)\0\0\0\0\0\0\0\0\0\0\0\0\0\0\0\0\0\0\0\0\0\0\0\0\0\0\0\0\0\0\0\0\0\0\0\0",
    ),
    (
        *b"libisns\0\0\0\0\0\0\0\0",
        *b"Internet Storage Name Service Library (libisns, -lisns)\0\0\0\0\0\0\0\0\0\0\0\0\0\0\0\0\0\0\0\0\0\0\0",
    ),
    (
        *b"libjail\0\0\0\0\0\0\0\0",
        *b"Jail Library (libjail, -ljail)\0\0\0\0\0\0\0\0\0\0\0\0\0\0\0\0\0\0\0\0\0\0\0\0\0\0\0\0\0\0\0\0\0\0\0\0\0\0\0\0\0\0\0\0\0\0\0\0",
    ),
    (
        *b"libkcore\0\0\0\0\0\0\0",
        *b"Kernel Memory Core Access Library (libkcore, -lkcore)\0\0\0\0\0\0\0\0\0\0\0\0\0\0\0\0\0\0\0\0\0\0\0\0\0",
    ),
    (
        *b"libkiconv\0\0\0\0\0\0",
        *b"Kernel-side iconv Library (libkiconv, -lkiconv)\0\0\0\0\0\0\0\0\0\0\0\0\0\0\0\0\0\0\0\0\0\0\0\0\0\0\0\0\0\0\0",
    ),
    (
        *b"libkse\0\0\0\0\0\0\0\0\0",
        *b"N:M Threading Library (libkse, -lkse)\0\0\0\0\0\0\0\0\0\0\0\0\0\0\0\0\0\0\0\0\0\0\0\0\0\0\0\0\0\0\0\0\0\0\0\0\0\0\0\0\0",
    ),
    (
        *b"libkvm\0\0\0\0\0\0\0\0\0",
        *b"Kernel Data Access Library (libkvm, -lkvm)\0\0\0\0\0\0\0\0\0\0\0\0\0\0\0\0\0\0\0\0\0\0\0\0\0\0\0\0\0\0\0\0\0\0\0\0",
    ),
    (
        *b"libm\0\0\0\0\0\0\0\0\0\0\0",
        *b"Math Library (libm, -lm)\0\0\0\0\0\0\0\0\0\0\0\0\0\0\0\0\0\0\0\0\0\0\0\0\0\0\0\0\0\0\0\0\0\0\0\0\0\0\0\0\0\0\0\0\0\0\0\0\0\0\0\0\0\0",
    ),
    (
        *b"libm68k\0\0\0\0\0\0\0\0",
        *b"m68k Architecture Library (libm68k, -lm68k)\0\0\0\0\0\0\0\0\0\0\0\0\0\0\0\0\0\0\0\0\0\0\0\0\0\0\0\0\0\0\0\0\0\0\0",
    ),
    (
        *b"libmagic\0\0\0\0\0\0\0",
        *b"Magic Number Recognition Library (libmagic, -lmagic)\0\0\0\0\0\0\0\0\0\0\0\0\0\0\0\0\0\0\0\0\0\0\0\0\0\0",
    ),
    (
        *b"libmandoc\0\0\0\0\0\0",
        *b"Mandoc Macro Compiler Library (libmandoc, -lmandoc)\0\0\0\0\0\0\0\0\0\0\0\0\0\0\0\0\0\0\0\0\0\0\0\0\0\0\0",
    ),
    (
        *b"libmd\0\0\0\0\0\0\0\0\0\0",
        *b"Message Digest (MD4, MD5, etc.) Support Library (libmd, -lmd)\0\0\0\0\0\0\0\0\0\0\0\0\0\0\0\0\0",
    ),
    (
        *b"libmemstat\0\0\0\0\0",
        *b"Kernel Memory Allocator Statistics Library (libmemstat, -lmemstat)\0\0\0\0\0\0\0\0\0\0\0\0",
    ),
    (
        *b"libmenu\0\0\0\0\0\0\0\0",
        *b"Curses Menu Library (libmenu, -lmenu)\0\0\0\0\0\0\0\0\0\0\0\0\0\0\0\0\0\0\0\0\0\0\0\0\0\0\0\0\0\0\0\0\0\0\0\0\0\0\0\0\0",
    ),
    (
        *b"libmj\0\0\0\0\0\0\0\0\0\0",
        *b"Minimalist JSON library (libmj, -lmj)\0\0\0\0\0\0\0\0\0\0\0\0\0\0\0\0\0\0\0\0\0\0\0\0\0\0\0\0\0\0\0\0\0\0\0\0\0\0\0\0\0",
    ),
    (
        *b"libnetgraph\0\0\0\0",
        *b"Netgraph User Library (libnetgraph, -lnetgraph)\0\0\0\0\0\0\0\0\0\0\0\0\0\0\0\0\0\0\0\0\0\0\0\0\0\0\0\0\0\0\0",
    ),
    (
        *b"libnetpgp\0\0\0\0\0\0",
        *b"Netpgp Signing, Verification, Encryption and Decryption (libnetpgp, -lnetpgp)\0",
    ),
    (
        *b"libnetpgpverify",
        *b"Netpgp Verification (libnetpgpverify, -lnetpgpverify)\0\0\0\0\0\0\0\0\0\0\0\0\0\0\0\0\0\0\0\0\0\0\0\0\0",
    ),
    (
        *b"libnpf\0\0\0\0\0\0\0\0\0",
        *b"NPF Packet Filter Library (libnpf, -lnpf)\0\0\0\0\0\0\0\0\0\0\0\0\0\0\0\0\0\0\0\0\0\0\0\0\0\0\0\0\0\0\0\0\0\0\0\0\0",
    ),
    (
        *b"libnv\0\0\0\0\0\0\0\0\0\0",
        *b"Name/value pairs library (libnv, -lnv)\0\0\0\0\0\0\0\0\0\0\0\0\0\0\0\0\0\0\0\0\0\0\0\0\0\0\0\0\0\0\0\0\0\0\0\0\0\0\0\0",
    ),
    (
        *b"libossaudio\0\0\0\0",
        *b"OSS Audio Emulation Library (libossaudio, -lossaudio)\0\0\0\0\0\0\0\0\0\0\0\0\0\0\0\0\0\0\0\0\0\0\0\0\0",
    ),
    (
        *b"libpam\0\0\0\0\0\0\0\0\0",
        *b"Pluggable Authentication Module Library (libpam, -lpam)\0\0\0\0\0\0\0\0\0\0\0\0\0\0\0\0\0\0\0\0\0\0\0",
    ),
    (
        *b"libpanel\0\0\0\0\0\0\0",
        *b"Z-order for curses windows (libpanel, -lpanel)\0\0\0\0\0\0\0\0\0\0\0\0\0\0\0\0\0\0\0\0\0\0\0\0\0\0\0\0\0\0\0\0",
    ),
    (
        *b"libpcap\0\0\0\0\0\0\0\0",
        *b"Packet capture Library (libpcap, -lpcap)\0\0\0\0\0\0\0\0\0\0\0\0\0\0\0\0\0\0\0\0\0\0\0\0\0\0\0\0\0\0\0\0\0\0\0\0\0\0",
    ),
    (
        *b"libpci\0\0\0\0\0\0\0\0\0",
        *b"PCI Bus Access Library (libpci, -lpci)\0\0\0\0\0\0\0\0\0\0\0\0\0\0\0\0\0\0\0\0\0\0\0\0\0\0\0\0\0\0\0\0\0\0\0\0\0\0\0\0",
    ),
    (
        *b"libpmc\0\0\0\0\0\0\0\0\0",
        *b"Performance Counters Library (libpmc, -lpmc)\0\0\0\0\0\0\0\0\0\0\0\0\0\0\0\0\0\0\0\0\0\0\0\0\0\0\0\0\0\0\0\0\0\0",
    ),
    (
        *b"libposix\0\0\0\0\0\0\0",
        *b"POSIX Compatibility Library (libposix, -lposix)\0\0\0\0\0\0\0\0\0\0\0\0\0\0\0\0\0\0\0\0\0\0\0\0\0\0\0\0\0\0\0",
    ),
    (
        *b"libposix1e\0\0\0\0\0",
        *b"POSIX.1e Security API Library (libposix1e, -lposix1e)\0\0\0\0\0\0\0\0\0\0\0\0\0\0\0\0\0\0\0\0\0\0\0\0\0",
    ),
    (
        *b"libppath\0\0\0\0\0\0\0",
        *b"Property-List Paths Library (libppath, -lppath)\0\0\0\0\0\0\0\0\0\0\0\0\0\0\0\0\0\0\0\0\0\0\0\0\0\0\0\0\0\0\0",
    ),
    (
        *b"libproc\0\0\0\0\0\0\0\0",
        *b"Processor Monitoring and Analysis Library (libproc, -lproc)\0\0\0\0\0\0\0\0\0\0\0\0\0\0\0\0\0\0\0",
    ),
    (
        *b"libprocstat\0\0\0\0",
        *b"Process and Files Information Retrieval (libprocstat, -lprocstat)\0\0\0\0\0\0\0\0\0\0\0\0\0",
    ),
    (
        *b"libprop\0\0\0\0\0\0\0\0",
        *b"Property Container Object Library (libprop, -lprop)\0\0\0\0\0\0\0\0\0\0\0\0\0\0\0\0\0\0\0\0\0\0\0\0\0\0\0",
    ),
    (
        *b"libpthread\0\0\0\0\0",
        *b"POSIX Threads Library (libpthread, -lpthread)\0\0\0\0\0\0\0\0\0\0\0\0\0\0\0\0\0\0\0\0\0\0\0\0\0\0\0\0\0\0\0\0\0",
    ),
    (
        *b"libpthread_dbg\0",
        *b"POSIX Debug Threads Library (libpthread_dbg, -lpthread_dbg)\0\0\0\0\0\0\0\0\0\0\0\0\0\0\0\0\0\0\0",
    ),
    (
        *b"libpuffs\0\0\0\0\0\0\0",
        *b"puffs Convenience Library (libpuffs, -lpuffs)\0\0\0\0\0\0\0\0\0\0\0\0\0\0\0\0\0\0\0\0\0\0\0\0\0\0\0\0\0\0\0\0\0",
    ),
    (
        *b"libquota\0\0\0\0\0\0\0",
        *b"Disk Quota Access and Control Library (libquota, -lquota)\0\0\0\0\0\0\0\0\0\0\0\0\0\0\0\0\0\0\0\0\0",
    ),
    (
        *b"libradius\0\0\0\0\0\0",
        *b"RADIUS Client Library (libradius, -lradius)\0\0\0\0\0\0\0\0\0\0\0\0\0\0\0\0\0\0\0\0\0\0\0\0\0\0\0\0\0\0\0\0\0\0\0",
    ),
    (
        *b"librefuse\0\0\0\0\0\0",
        *b"File System in Userspace Convenience Library (librefuse, -lrefuse)\0\0\0\0\0\0\0\0\0\0\0\0",
    ),
    (
        *b"libresolv\0\0\0\0\0\0",
        *b"DNS Resolver Library (libresolv, -lresolv)\0\0\0\0\0\0\0\0\0\0\0\0\0\0\0\0\0\0\0\0\0\0\0\0\0\0\0\0\0\0\0\0\0\0\0\0",
    ),
    (
        *b"librpcsec_gss\0\0",
        *b"RPC GSS-API Authentication Library (librpcsec_gss, -lrpcsec_gss)\0\0\0\0\0\0\0\0\0\0\0\0\0\0",
    ),
    (
        *b"librpcsvc\0\0\0\0\0\0",
        *b"RPC Service Library (librpcsvc, -lrpcsvc)\0\0\0\0\0\0\0\0\0\0\0\0\0\0\0\0\0\0\0\0\0\0\0\0\0\0\0\0\0\0\0\0\0\0\0\0\0",
    ),
    (
        *b"librt\0\0\0\0\0\0\0\0\0\0",
        *b"POSIX Real-time Library (librt, -lrt)\0\0\0\0\0\0\0\0\0\0\0\0\0\0\0\0\0\0\0\0\0\0\0\0\0\0\0\0\0\0\0\0\0\0\0\0\0\0\0\0\0",
    ),
    (
        *b"librtld_db\0\0\0\0\0",
        *b"Debugging interface to the runtime linker Library (librtld_db, -lrtld_db)\0\0\0\0\0",
    ),
    (
        *b"libsaslc\0\0\0\0\0\0\0",
        *b"Simple Authentication and Security Layer client library (libsaslc, -lsaslc)\0\0\0",
    ),
    (
        *b"libsbuf\0\0\0\0\0\0\0\0",
        *b"Safe String Composition Library (libsbuf, -lsbuf)\0\0\0\0\0\0\0\0\0\0\0\0\0\0\0\0\0\0\0\0\0\0\0\0\0\0\0\0\0",
    ),
    (
        *b"libsdp\0\0\0\0\0\0\0\0\0",
        *b"Bluetooth Service Discovery Protocol User Library (libsdp, -lsdp)\0\0\0\0\0\0\0\0\0\0\0\0\0",
    ),
    (
        *b"libssp\0\0\0\0\0\0\0\0\0",
        *b"Buffer Overflow Protection Library (libssp, -lssp)\0\0\0\0\0\0\0\0\0\0\0\0\0\0\0\0\0\0\0\0\0\0\0\0\0\0\0\0",
    ),
    (
        *b"libstand\0\0\0\0\0\0\0",
        *b"Standalone Applications Library (libstand, -lstand)\0\0\0\0\0\0\0\0\0\0\0\0\0\0\0\0\0\0\0\0\0\0\0\0\0\0\0",
    ),
    (
        *b"libstdthreads\0\0",
        *b"C11 Threads Library (libstdthreads, -lstdthreads)\0\0\0\0\0\0\0\0\0\0\0\0\0\0\0\0\0\0\0\0\0\0\0\0\0\0\0\0\0",
    ),
    (
        *b"libsysdecode\0\0\0",
        *b"System Argument Decoding Library (libsysdecode, -lsysdecode)\0\0\0\0\0\0\0\0\0\0\0\0\0\0\0\0\0\0",
    ),
    (
        *b"libtacplus\0\0\0\0\0",
        *b"TACACS+ Client Library (libtacplus, -ltacplus)\0\0\0\0\0\0\0\0\0\0\0\0\0\0\0\0\0\0\0\0\0\0\0\0\0\0\0\0\0\0\0\0",
    ),
    (
        *b"libtcplay\0\0\0\0\0\0",
        *b"TrueCrypt-compatible API library (libtcplay, -ltcplay)\0\0\0\0\0\0\0\0\0\0\0\0\0\0\0\0\0\0\0\0\0\0\0\0",
    ),
    (
        *b"libtermcap\0\0\0\0\0",
        *b"Termcap Access Library (libtermcap, -ltermcap)\0\0\0\0\0\0\0\0\0\0\0\0\0\0\0\0\0\0\0\0\0\0\0\0\0\0\0\0\0\0\0\0",
    ),
    (
        *b"libterminfo\0\0\0\0",
        *b"Terminal Information Library (libterminfo, -lterminfo)\0\0\0\0\0\0\0\0\0\0\0\0\0\0\0\0\0\0\0\0\0\0\0\0",
    ),
    (
        *b"libthr\0\0\0\0\0\0\0\0\0",
        *b"1:1 Threading Library (libthr, -lthr)\0\0\0\0\0\0\0\0\0\0\0\0\0\0\0\0\0\0\0\0\0\0\0\0\0\0\0\0\0\0\0\0\0\0\0\0\0\0\0\0\0",
    ),
    (
        *b"libufs\0\0\0\0\0\0\0\0\0",
        *b"UFS File System Access Library (libufs, -lufs)\0\0\0\0\0\0\0\0\0\0\0\0\0\0\0\0\0\0\0\0\0\0\0\0\0\0\0\0\0\0\0\0",
    ),
    (
        *b"libugidfw\0\0\0\0\0\0",
        *b"File System Firewall Interface Library (libugidfw, -lugidfw)\0\0\0\0\0\0\0\0\0\0\0\0\0\0\0\0\0\0",
    ),
    (
        *b"libulog\0\0\0\0\0\0\0\0",
        *b"User Login Record Library (libulog, -lulog)\0\0\0\0\0\0\0\0\0\0\0\0\0\0\0\0\0\0\0\0\0\0\0\0\0\0\0\0\0\0\0\0\0\0\0",
    ),
    (
        *b"libusbhid\0\0\0\0\0\0",
        *b"USB Human Interface Devices Library (libusbhid, -lusbhid)\0\0\0\0\0\0\0\0\0\0\0\0\0\0\0\0\0\0\0\0\0",
    ),
    (
        *b"libutil\0\0\0\0\0\0\0\0",
        *b"System Utilities Library (libutil, -lutil)\0\0\0\0\0\0\0\0\0\0\0\0\0\0\0\0\0\0\0\0\0\0\0\0\0\0\0\0\0\0\0\0\0\0\0\0",
    ),
    (
        *b"libvgl\0\0\0\0\0\0\0\0\0",
        *b"Video Graphics Library (libvgl, -lvgl)\0\0\0\0\0\0\0\0\0\0\0\0\0\0\0\0\0\0\0\0\0\0\0\0\0\0\0\0\0\0\0\0\0\0\0\0\0\0\0\0",
    ),
    (
        *b"libx86_64\0\0\0\0\0\0",
        *b"x86_64 Architecture Library (libx86_64, -lx86_64)\0\0\0\0\0\0\0\0\0\0\0\0\0\0\0\0\0\0\0\0\0\0\0\0\0\0\0\0\0",
    ),
    (
        *b"libxo\0\0\0\0\0\0\0\0\0\0",
        *b"Text, XML, JSON, and HTML Output Emission Library (libxo, -lxo)\0\0\0\0\0\0\0\0\0\0\0\0\0\0\0",
    ),
    (
        *b"libz\0\0\0\0\0\0\0\0\0\0\0",
        *b"Compression Library (libz, -lz)\0\0\0\0\0\0\0\0\0\0\0\0\0\0\0\0\0\0\0\0\0\0\0\0\0\0\0\0\0\0\0\0\0\0\0\0\0\0\0\0\0\0\0\0\0\0\0",
    ),
];
