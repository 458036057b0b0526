//! The 128-bit hashes of SipHash-1-3 for 72 texts under two pairs of keys.
use comemo_base::SipHasher13;
use std::alloc::{AllocError, Global};
use std::hash::Hasher;

// Each pair is the length of a text and its hash, with both keys 0. Byte i of a text is (7 i + 3) modulo 256.
//
// The hashes, here and in the next table, come from the 128-bit `SipHasher13` of the Rust crate `siphasher`, which
// comemo 0.5.1 uses. A second program, written from the description of the algorithm, gave the same ones.
const UNDER_ZERO_KEYS: &[(usize, u128)] = &[
    (0, 0xb91c5ed0_31fb3303_2134935d_61d9b40d),
    (1, 0xccb70af7_614c5cd4_c45292aa_0dcbc16b),
    (2, 0x7186e5f1_52886637_660bdda1_33cc6c7a),
    (3, 0x3307629f_41a6fdc8_6df5a6ff_5e1bfb82),
    (4, 0x143a67ca_0af12b1e_a5057f42_4a31abde),
    (5, 0x3ed63ab3_85b389da_6c8c2667_e0743ae9),
    (6, 0xc23d8ab5_67785e6b_9224bd47_242773aa),
    (7, 0xad2685a3_359fa436_4f2e2c96_201b70cb),
    (8, 0x9a465042_c2f122b9_fb3bb032_a92cc182),
    (9, 0xbb3e91cd_6f3c22ec_d685584b_de93bf9c),
    (10, 0xe5d25d86_24b675bd_eec65818_748348c9),
    (11, 0x008323af_52c17a42_7d19e460_ad86d16e),
    (12, 0xd9ef020e_052fe2b9_bbf03d96_bfedc5a3),
    (13, 0xe10fb6e7_0f90eebb_64aae02b_029b758a),
    (14, 0x9ea3ede7_71910318_0c9eaca4_ea29ff62),
    (15, 0x80a49d5d_d89f63a3_82e0f1ae_4c4f8280),
    (16, 0x1fbd06f4_fc0fc819_8b19744c_bfc41ebb),
    (17, 0xdfafc7e3_29a0cf1c_c4ceb89a_492b30af),
    (18, 0x85785e92_1fa8d071_e5f39639_ada398d0),
    (19, 0x120f5547_ab27ccac_55479e78_f167fc5c),
    (20, 0x44f9e264_ce0f6139_5abbe006_5d35066e),
    (21, 0x71b9ebfe_d6d38834_0ee207a6_858048e2),
    (22, 0x5657e534_ba0a06c4_162ba0c5_ed015b33),
    (23, 0xbb372d4f_c3f44e5a_777d26c8_933b1039),
    (24, 0x4f54ae36_a4816547_3798714d_64ea3aeb),
    (25, 0xf942f6f4_1ae8596a_02cfe155_99e27a6f),
    (26, 0xe56cabc2_c0049945_2eceb605_69aaeaea),
    (27, 0x36778ebc_c2fecddd_bcc936a8_92bb2639),
    (28, 0x7aa1ce35_14625166_21b85730_a2be3bad),
    (29, 0x1d1cab78_781effbf_061e0bb1_ae80a73f),
    (30, 0x36617b37_46ab5a50_1651b976_c516ba4c),
    (31, 0xeab01f52_4c38c7b4_8f999855_b5aff2c6),
    (32, 0x56176a1a_6ce00468_047de189_7a30360c),
    (33, 0x975766db_5c6e803f_bbfb2089_9f9004a6),
    (34, 0x5821a888_c7037b6d_95683700_f84bbb1b),
    (35, 0xf739fa0b_048ab72e_88215bf5_e90a3f29),
    (36, 0x2ef09613_1ef45688_43d724d8_79f83c12),
    (37, 0xda99aba6_97f1b299_b14dcd30_4a6d2563),
    (38, 0x00494e78_792474c5_9fe74c7b_fd237d96),
    (39, 0xea66c3fd_52cc8ccf_63963304_86b45d05),
    (40, 0x713dfc57_ab92f82c_08e60a98_5dfe83fb),
    (41, 0x1452b71e_e3d36557_df8c5053_4a5c4263),
    (42, 0xe8e25772_0a941081_e64ad6e3_527af128),
    (43, 0xdc22c161_25165d71_83492e24_1b1c107a),
    (44, 0xcbb04f23_a83c7426_08fbe899_7a0215c4),
    (45, 0x646173a1_41ddc615_975f31ef_3e583c42),
    (46, 0x3c18d8f0_d942e2b8_eafa7f8e_1991b99d),
    (47, 0x997d5041_12be1b96_f3ed8cb9_fc038155),
    (48, 0xa0e22d1b_6e965746_89c4a56a_1f4b038c),
    (49, 0x34e5a2ae_e702aef2_cb3001f9_9fc0389f),
    (50, 0xeb1cfbd4_987ddf99_73153d2f_f5100488),
    (51, 0x73d5bf3a_466133da_6909a334_afe5f014),
    (52, 0x0f258578_68b4cc8b_30dc3e29_a2018e12),
    (53, 0x5e20ec7d_08e3c1d0_20abeb4b_385cb11e),
    (54, 0x8e0d4bee_ef52c76c_426046f3_9a61d3c4),
    (55, 0x54b9f011_c67edf4d_e8d2c8af_69eeaa74),
    (56, 0xea0ad6f4_a90ec133_d36182a4_bb02d089),
    (57, 0x9439a59f_cf6718de_92253043_2e7eb63c),
    (58, 0xcd7bf78d_816353a6_9f55f235_c94a8c98),
    (59, 0xbe9da817_ffaad12d_b9e1c988_19e6e950),
    (60, 0xab9164bd_db39c2f6_55fa09b4_30578326),
    (61, 0x03080ad5_48387108_5d630e70_d783b37d),
    (62, 0xb1776a0f_d48940e5_c6495a3d_64942e43),
    (63, 0xd1c39b60_0573caca_994d0593_34a9a9b7),
    (64, 0x481cae40_f21be336_eb55604e_c431046d),
    (127, 0x5272efae_0e4f6612_38d68e64_c3c67066),
    (128, 0x1a73be9f_9ed49ebc_5ecd07e0_0e99fe8e),
    (129, 0xf0b6abdc_e07bcb04_23522909_e87ef5dd),
    (255, 0xc54be8b7_953d357f_f67ccaea_13059887),
    (256, 0x331c6979_f6436711_828010d5_e71137ca),
    (257, 0xced3f0d7_452a72b9_026fdd6d_181a5113),
    (1000, 0x4e65e25a_f5c35518_4f002a35_87d034e5),
];

// The same texts with the keys 0x0706_0504_0302_0100 and 0x0f0e_0d0c_0b0a_0908.
const UNDER_COUNTING_KEYS: &[(usize, u128)] = &[
    (0, 0x013030dd_6adb62fd_bea58827_b2bc7ee7),
    (1, 0x084510ab_fa9db2ae_286c123c_6a4dba53),
    (2, 0x2f368355_1b8846a1_920d6cf6_09dd4bb8),
    (3, 0x2ebebfe1_f9f207b6_6e2ae1e7_00b66636),
    (4, 0x9a779f9e_2ebb3f6a_6ce56af1_91cff6f2),
    (5, 0x190cf1ca_9d4c4c2f_cfc9ff8e_d95c4406),
    (6, 0xf98b346f_23556824_f832da85_84152547),
    (7, 0xf31bf316_f49e3d90_d7d6080c_9df3ae2e),
    (8, 0xe56158b5_3dbee13e_47e34194_6f84d633),
    (9, 0x215185ac_4d31c06f_b583e869_06e32ee5),
    (10, 0x4e811033_09ed09ba_ec0fda26_202f4e1d),
    (11, 0x1ea86c86_83464334_dbdfb0d9_f867d6ac),
    (12, 0x76ad299e_f93c3e42_65393912_24fa570d),
    (13, 0x2b63d32f_c7fecbdf_0ee93f0e_181379e3),
    (14, 0x82a05f81_9d879ea8_879e1165_d2d47395),
    (15, 0xefd48a8a_5d2a73c4_6f5d7de4_9b65f48e),
    (16, 0xf865a177_e16b8c9f_3891a641_d7a4c92b),
    (17, 0x321b2788_9edefdd5_f5ceb711_ca061a4f),
    (18, 0x0daaad25_39f90c63_766f21f2_dee5915b),
    (19, 0xe16d7ad3_e7a96c6b_123449c9_b8736fc2),
    (20, 0xd0e460d8_10f67eff_e19c5cd0_35eafa64),
    (21, 0xe0e786d9_a4433bac_1c4f9132_473f224c),
    (22, 0x08153eb8_aae8a622_95122155_6d085fab),
    (23, 0xb21634ea_a57df72b_8d162fea_3ed7d3c5),
    (24, 0x34a7698a_6799bbe1_66dbc082_6f8447b3),
    (25, 0x0737c683_862b9bb5_6ae3138c_8b4632b4),
    (26, 0xdc4f3055_2b3beeab_83c06b4a_fcee4a9a),
    (27, 0x458fc5c9_fd75752a_1afd7b11_04495fae),
    (28, 0x9b623ea6_5d964f41_2a4e3ebc_b2195e2f),
    (29, 0x5fe82cf8_bf9af44e_20d5b6fe_75152cac),
    (30, 0x889eca44_492ee78d_30691776_d75b98d0),
    (31, 0x67fb70b2_ccb6483a_e5f5f9f2_84a884fe),
    (32, 0xcc9faf96_1f958f32_f29fbc49_c78127ff),
    (33, 0x15f44cd6_279faa6f_d4a8878a_a3bf7922),
    (34, 0x449edd29_ef68afc0_f70705a4_f42b64c8),
    (35, 0x101eaec2_0c5048eb_8e475602_0f2c650a),
    (36, 0x4ab93de5_1151b341_c871b2d3_ae341bad),
    (37, 0x86c2f22c_c17e2071_cf4a2cea_1aa538eb),
    (38, 0xb765ff6e_49eeb881_3f42da4b_299e27d0),
    (39, 0x188d2718_a28bee4f_074f795f_610bdffd),
    (40, 0xb2d1d613_71ed65a3_26a248b6_8fc66dd5),
    (41, 0x45fc620d_f36e77fd_b4867100_f8445a76),
    (42, 0x9f138661_7184b6c9_f5caccc4_f61861b2),
    (43, 0xd60609ab_34e94695_ecfc5f8a_171b2abb),
    (44, 0xbf79d7ba_f9e43ae7_6bd5d646_a369efdc),
    (45, 0x188a732a_0a805c47_bc7b2ace_cecd6323),
    (46, 0x989552aa_7921e1a8_d06da836_0c87ace4),
    (47, 0x6fcb2198_18a1bc88_72255f3b_53683d8f),
    (48, 0xeee57a78_657c7124_0a1d17b7_02bbdecd),
    (49, 0x0d2f67ef_e3150ffd_9e18e703_c3087cb2),
    (50, 0xaa762d76_97b21405_be155963_e416dfb9),
    (51, 0x983a1939_5ef734a5_74948a79_6332bb02),
    (52, 0xd90a8546_86039eb1_acb599e0_71453165),
    (53, 0xd9f23824_364cc163_19018c6f_9072e059),
    (54, 0x81c64e42_4e9cfe53_3dd29e12_c8b91a86),
    (55, 0xa2854e1e_7b087459_2174fba2_d54afeac),
    (56, 0x159742d5_362a31fa_eb5d6e0e_5671f11b),
    (57, 0x24f29520_21b08e11_df141626_d155a04c),
    (58, 0x41b05290_4d66565c_a6f7dfbc_7820f852),
    (59, 0xca9f9649_4c48b6e9_c5171075_cd375b65),
    (60, 0x3baa6263_4f5b3d8e_19199400_ad5dcdb6),
    (61, 0x575d1a25_00634345_62a7f1dd_197de6b1),
    (62, 0x35f9481a_ae317833_ebc4ddef_100b1708),
    (63, 0x5ce2b124_f9dd6ff3_7e8f8dd0_7c8226c2),
    (64, 0x761958ba_2472a4a1_727e87fb_b635fd91),
    (127, 0xa6265c64_2af71bda_2dc9d39a_663474a4),
    (128, 0xc54f0b3d_3df1497b_796311d6_ba2aad12),
    (129, 0xd711a767_8dfa1598_4be42ead_9cbc19b5),
    (255, 0x4859808d_960da9e4_9951b48f_3aa8549e),
    (256, 0x6815a102_50e1c931_c4b2145f_d44a9e9f),
    (257, 0x02b8c4bc_4fc646fc_46c0720a_d27cfaf6),
    (1000, 0x0ee20877_914feaee_0f760e51_84e09366),
];

// The text of a length.
fn text(alloc: Global, count: usize) -> Result<Vec<u8>, AllocError> {
    let mut bytes = Vec::new(alloc);
    let mut byte = 3u8;
    for _ in 0..count {
        bytes.push(byte)?;
        byte = byte.wrapping_add(7);
    }
    Ok(bytes)
}

// Whether the text of a length has this hash under two keys.
fn has_number(alloc: Global, k0: u64, k1: u64, count: usize, number: u128) -> bool {
    let Ok(bytes) = text(alloc, count) else {
        return false;
    };
    let mut hasher = SipHasher13::new_with_keys(k0, k1);
    hasher.write(bytes.as_slice());
    hasher.finish128() == number
}

#[test]
fn texts_have_the_numbers_of_the_rust_crate(rt: HostRuntime) {
    let alloc = rt.alloc();
    for (count, number) in UNDER_ZERO_KEYS {
        assert!(rt;
            has_number(alloc, 0, 0, *count, *number),
            "of {count} bytes"
        );
    }
    let (k0, k1) = (0x0706_0504_0302_0100, 0x0f0e_0d0c_0b0a_0908);
    for (count, number) in UNDER_COUNTING_KEYS {
        assert!(rt;
            has_number(alloc, k0, k1, *count, *number),
            "of {count} bytes"
        );
    }
}
